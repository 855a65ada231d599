//! The statements of one draw, and of the 64 draws of a function.
ghost use Rattle.std.specs.Prelude.{◌≡◌, ◌<◌, ◌++◌, ◌∷◌, [], OnOk, IfOk};
ghost use Rattle.il_syntax.specs.declared.statement.Stmt as made;
ghost use Rattle.gen_program.specs.Generated.{drawn, after_word, drawn_by_form, one_draw, draws, constant, three_turns};

use il_syntax::{Atom, Block, Stmt};
use rand_core::utils::NextWord;
use rand_pcg::Lcg64Xsh32;
use sqlite_items::Items;
use std::alloc::Global;
use values_undef::{NoMemory, Op, Order};

/// How many draws make a function's body.
const DRAWS: u32 = 64;

/// What the next word leaves when it is divided by the count.
fn draw_below(generator: &mut Lcg64Xsh32, count: u32) -> u32
    requires { 0 < count }
    ensures value { result ≡ drawn count generator.old }
    ensures below { result < count }
    ensures generator { generator.new ≡ after_word generator.old }
{
    generator.next_word() % count
}

/// A constant below a hundred.
fn draw_constant(generator: &mut Lcg64Xsh32) -> Atom
    ensures value { result ≡ constant (drawn 100 generator.old) }
    ensures generator { generator.new ≡ after_word generator.old }
{
    Atom::Const(i64::from(draw_below(generator, 100)))
}

/// A store to one of the two atomic locations.
fn draw_store(generator: &mut Lcg64Xsh32, order: Order) -> Stmt
    ensures value { result ≡ made.AtomicStore order (drawn 2 generator.old) (constant (drawn 100 (after_word generator.old))) }
    ensures generator { generator.new ≡ after_word (after_word generator.old) }
{
    let y = draw_below(generator, 2);
    let a = draw_constant(generator);
    Stmt::AtomicStore { order, y, a }
}

/// Puts a loop of three turns that loads the location.
fn push_three_turns(alloc: Global, x: u32, statements: &mut Items<Stmt>) -> Result<(), NoMemory>
    ensures { OnOk result (statements.new ≡ statements.old ++ three_turns x) }
{
    let counter = Atom::Reg(4);
    let mut body = Items::new(alloc);
    body.push(Stmt::Load { r: 0, x })?;
    body.push(Stmt::Compute {
        r: 4,
        op: Op::Sub,
        a: counter,
        b: Atom::Const(1),
    })?;
    statements.push(Stmt::Copy {
        r: 4,
        a: Atom::Const(3),
    })?;
    statements.push(Stmt::While {
        a: counter,
        body: Block { statements: body },
    })?;
    Ok(())
}

/// The one statement of a draw, by the form that its first word has chosen.
fn draw_statement(form: u32, x: u32, generator: &mut Lcg64Xsh32) -> Stmt
    requires { form < 7 }
    ensures statement { result ∷ [] ≡ (drawn_by_form form x generator.old).statements }
    ensures generator { generator.new ≡ (drawn_by_form form x generator.old).generator }
{
    match form {
        0 => Stmt::Store {
            x,
            a: draw_constant(generator),
        },
        1 => Stmt::Load {
            r: draw_below(generator, 2),
            x,
        },
        2 => Stmt::Load {
            r: 2,
            x: draw_below(generator, 4),
        },
        3 => draw_store(generator, Order::Rlx),
        4 => Stmt::AtomicLoad {
            r: 3,
            order: Order::Acq,
            y: draw_below(generator, 2),
        },
        5 => draw_store(generator, Order::Rel),
        6 => Stmt::Print {
            a: draw_constant(generator),
        },
        _ => unreachable!(),
    }
}

/// Puts the statements of one draw.
fn push_draw(
    alloc: Global,
    x: u32,
    generator: &mut Lcg64Xsh32,
    statements: &mut Items<Stmt>,
) -> Result<(), NoMemory>
    ensures statements { OnOk result (statements.new ≡ statements.old ++ (one_draw x generator.old).statements) }
    ensures generator { OnOk result (generator.new ≡ (one_draw x generator.old).generator) }
{
    let form = draw_below(generator, 8);
    if form == 7 {
        return push_three_turns(alloc, x, statements);
    }
    statements.push(draw_statement(form, x, generator))?;
    Ok(())
}

/// The statements of 64 draws, for a function whose own location this is.
pub(crate) fn draw_body(
    alloc: Global,
    x: u32,
    generator: &mut Lcg64Xsh32,
) -> Result<Items<Stmt>, NoMemory>
    ensures statements { IfOk result (λ body. body ≡ (draws 64 x generator.old).statements) }
    ensures generator { OnOk result (generator.new ≡ (draws 64 x generator.old).generator) }
{
    let mut body = Items::new(alloc);
    for _draw in 0..DRAWS {
        push_draw(alloc, x, generator, &mut body)?;
    }
    Ok(body)
}
