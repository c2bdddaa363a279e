// Reading paths.
ghost use Rattle.std.specs.Prelude.{◌≡◌, ◌≤◌, [], IfOk, length};
ghost use Rattle.pipes_reader.specs.Reading.{GivesFrom};
ghost use Rattle.pipes_derivation.specs.Reading as spec;

use crate::take::is_top;
use pipes_reader::{Cursor, Entries, ParseFault, many_within, ran_out, take_number, too_many};
use pipes_token::{Sign, TokenKind};
use pipes_tuple::Cols;
use std::alloc::Global;
use std::marker::Model;

// The numbers of children that were read so far.
#[derive(Drop)]
struct Children {
    path: Vec<u32>,
}

impl Model for Children {
    ghost use Rattle.std.specs.Prelude.{List, ℕ};

    ghost Value = { List ℕ };

    ghost view = { λ c. c.path.items };
}

// Whether a point follows, and so another child.
#[tactic(auto, unfolding(pipes_reader::specs::Reading::optional))]
fn read_point(path: &[u32], cursor: &mut Cursor<'_>) -> Result<bool, ParseFault>
    ensures { GivesFrom (λ more. (path.now, more))
        (spec.read_point path.now) cursor.old cursor.new result }
{
    let _ = path;
    match cursor.rest() {
        [token, ..] if matches!(token.kind, TokenKind::Sign(Sign::Point)) => {
            cursor.skip();
            Ok(true)
        }
        _ => Ok(false),
    }
}

impl Entries<()> for Children {
    ghost step = { λ context. spec.read_child };

    ghost over = { λ context. spec.child_too_many };

    #[tactic(auto, unfolding(crate::specs::Reading::read_child))]
    fn step(&mut self, _context: &(), cursor: &mut Cursor<'_>) -> Result<bool, ParseFault> {
        let child = take_number(0, 1, cursor)?;
        self.path.push(child as u32)?;
        read_point(self.path.as_slice(), cursor)
    }

    fn over(&mut self, _context: &(), cursor: &mut Cursor<'_>) -> Result<(), ParseFault> {
        Err(ParseFault::Refused(too_many(cursor.rest())))
    }
}

// The numbers of children, with points between them.
#[tactic(auto, using(crate::proofs::PathLaws::children_fit), unfolding(crate::specs::Reading::read_children))]
fn read_children(alloc: Global, cursor: &mut Cursor<'_>) -> Result<Children, ParseFault>
    ensures exact { GivesFrom (λ path. path) spec.read_children cursor.old cursor.new result }
    ensures bound { IfOk result (λ path. length path ≤ 32) }
{
    let mut children = Children {
        path: Vec::new(alloc),
    };
    many_within(32, &(), &mut children, cursor)?;
    Ok(children)
}

// A path, as the value of a step has it.
fn listed(children: Children) -> Cols
    requires { length children ≤ 32 }
    ensures { result ≡ children }
{
    Cols::new(children.path).unwrap()
}

// A step's path.
#[tactic(auto, unfolding(crate::specs::Reading::read_path, crate::specs::Reading::read_top_word, crate::specs::Reading::either, pipes_reader::specs::Reading::take_by, pipes_reader::specs::Reading::take_first))]
pub fn read_path(alloc: Global, cursor: &mut Cursor<'_>) -> Result<Cols, ParseFault>
    ensures { GivesFrom (λ path. path) spec.read_path cursor.old cursor.new result }
{
    match cursor.rest() {
        [] => Err(ParseFault::Refused(ran_out())),
        [token, ..] => {
            if is_top(&token.kind) {
                cursor.skip();
                Ok(listed(Children {
                    path: Vec::new(alloc),
                }))
            } else {
                Ok(listed(read_children(alloc, cursor)?))
            }
        }
    }
}
