//! The title of an input.

ghost use Rattle.std.specs.Prelude.{◌≡◌, ◌++◌, MatchOption};
ghost use Rattle.replay_text.specs.Division.{title, IsUntitled};

/// What comes after the first line, where that is `program`.
pub(crate) fn after_title(input: &[u8]) -> Option<&[u8]>
    ensures { MatchOption result (IsUntitled input.now) (λ text. input.now ≡ title ++ text.now) }
{
    input.strip_prefix(b"program\n".as_slice())
}
