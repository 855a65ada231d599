//! One walk that copies a function and changes its statements.
ghost use Rattle.std.specs.Prelude.{◌≡◌, ◌<◌, ◌≤◌, ◌+◌, ◌^◌, ℕ, IfOk, MatchOption};
ghost use Rattle.il_syntax.specs.Statements.{site_count};
ghost use Rattle.il_paths.specs.Tree.{Leaf, leaf_statement, Tree, Empty, tree_of, before_rest, sites_of};
ghost use Rattle.rewriting.specs.Changed.{changed_tree, IsChanged};

use il_syntax::{Block, Function, Stmt, copy_name, copy_names, copy_statement};
use sqlite_items::Items;
use std::alloc::Global;
use values_undef::NoMemory;

/// What each statement without blocks becomes, by its site.
pub trait Rewrite {
    /// What it becomes.
    ghost changed: { Self → ℕ → Leaf → Leaf };

    /// How many sites it knows.
    ghost sites: { Self → ℕ };

    /// The statement that stands in the place of this one. `None` where it stays.
    fn rewrite(&self, site: u32, statement: &Stmt) -> Option<Stmt>
        requires { site < sites self.now }
        ensures { (leaf : Leaf) → statement.now ≡ leaf_statement leaf → MatchOption result (changed self.now site leaf ≡ leaf) (λ new. new ≡ leaf_statement (changed self.now site leaf)) };
}

/// A new block, and the site after it.
#[derive(Drop)]
struct NewBlock {
    block: Block,
    site: u32,
}

/// A new statement, and the site after it.
#[derive(Drop)]
struct NewStatement {
    statement: Stmt,
    site: u32,
}

/// The statement that stands in the place of one without blocks.
fn rewrite_leaf<R: Rewrite>(
    alloc: Global,
    rewrite: &R,
    statement: &Stmt,
    site: u32,
) -> Result<Stmt, NoMemory>
    requires { site < R.sites rewrite.now }
    ensures { IfOk result (λ new. (leaf : Leaf) → statement.now ≡ leaf_statement leaf → new ≡ leaf_statement (R.changed rewrite.now site leaf)) }
{
    match rewrite.rewrite(site, statement) {
        Some(new) => Ok(new),
        None => Ok(copy_statement(alloc, statement)?),
    }
}

#[cycle(rewrites)]
fn rewrite_block<R: Rewrite>(
    alloc: Global,
    rewrite: &R,
    block: &Block,
    site: u32,
) -> Result<NewBlock, NoMemory>
    requires known { site + sites_of (tree_of block.now) ≤ R.sites rewrite.now }
    requires small { site + sites_of (tree_of block.now) < 2 ^ 32 }
    ensures block { IfOk result (λ new. tree_of new.block ≡ changed_tree (R.changed rewrite.now) site (tree_of block.now)) }
    ensures site { IfOk result (λ new. new.site ≡ site + sites_of (tree_of block.now)) }
{
    let mut kept = Items::new(alloc);
    let mut at = site;
    for statement in block.statements.as_slice() {
        let new = rewrite_statement(alloc, rewrite, statement, at)?;
        kept.push(new.statement)?;
        at = new.site;
    }
    Ok(NewBlock {
        block: Block { statements: kept },
        site: at,
    })
}

/// The same for a statement, whatever comes after it.
#[cycle(rewrites)]
fn rewrite_statement<R: Rewrite>(
    alloc: Global,
    rewrite: &R,
    statement: &Stmt,
    site: u32,
) -> Result<NewStatement, NoMemory>
    requires known { site + sites_of (before_rest statement.now Empty) ≤ R.sites rewrite.now }
    requires small { site + sites_of (before_rest statement.now Empty) < 2 ^ 32 }
    ensures statement { IfOk result (λ new. (rest : Tree) → changed_tree (R.changed rewrite.now) site (before_rest statement.now rest) ≡ before_rest new.statement (changed_tree (R.changed rewrite.now) (site + sites_of (before_rest statement.now Empty)) rest)) }
    ensures site { IfOk result (λ new. new.site ≡ site + sites_of (before_rest statement.now Empty)) }
{
    match statement {
        Stmt::If { a, yes, no } => {
            let one = rewrite_block(alloc, rewrite, yes, site + 1)?;
            let other = rewrite_block(alloc, rewrite, no, one.site)?;
            Ok(NewStatement {
                statement: Stmt::If {
                    a: *a,
                    yes: one.block,
                    no: other.block,
                },
                site: other.site,
            })
        }
        Stmt::While { a, body } => {
            let turn = rewrite_block(alloc, rewrite, body, site + 1)?;
            Ok(NewStatement {
                statement: Stmt::While {
                    a: *a,
                    body: turn.block,
                },
                site: turn.site,
            })
        }
        _ => {
            let new = rewrite_leaf(alloc, rewrite, statement, site)?;
            Ok(NewStatement {
                statement: new,
                site: site + 1,
            })
        }
    }
}

/// The function with each of its statements changed, and all else as it was. Its condition is that the
/// rewriting knows all its sites.
#[tactic(auto, using(il_paths::proofs::Callers::sites_agree))]
pub fn rewritten<R: Rewrite>(alloc: Global, rewrite: &R, f: &Function) -> Result<Function, NoMemory>
    requires known { site_count f.now.body.statements ≤ R.sites rewrite.now }
    requires small { site_count f.now.body.statements < 2 ^ 32 }
    ensures { IfOk result (λ new. IsChanged (R.changed rewrite.now) f.now new) }
{
    let body = rewrite_block(alloc, rewrite, &f.body, 0)?;
    Ok(Function {
        name: copy_name(alloc, &f.name)?,
        params: f.params,
        registers: copy_names(alloc, f.registers.as_slice())?,
        body: body.block,
        result: f.result,
    })
}
