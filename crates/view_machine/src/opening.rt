//! What the threads of a program have seen at its beginning.
ghost use Rattle.std.specs.Prelude.{◌≡◌, ◌≤◌, replicate, IfOk};
ghost use Rattle.views.specs.ThreadView.{zero_view};

use std::alloc::Global;
use values_undef::NoMemory;
use views::View;

/// A view of nothing for each thread.
pub fn views(alloc: Global, places: u32, threads: usize) -> Result<Vec<View>, NoMemory>
    requires { places ≤ 32 }
    ensures { IfOk result (λ v. v.items ≡ replicate threads (zero_view places)) }
{
    let mut views = Vec::new(alloc);
    for i in 0..threads {
        views.push(View::zero(alloc, places))?;
    }
    Ok(views)
}
