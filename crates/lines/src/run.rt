// Runs the annotations twice. The first pass has no room for a record, so it only counts them, and a refusal has
// written nothing. The second writes them.
ghost use Rattle.lines.specs.Promises.{Running};
ghost use Rattle.lines.specs.Inner.{Passing};

use crate::refusal::Refusal;
use annotations::{Step, operands_at};
use line_entries::{ENTRIES_EACH, put};
use line_state::State;
use line_turn::turn;

/// Runs a line program, writes its records to the front of the store, and returns how many there are. Refuses with 7,
/// 8, 9, 25 or 10.
pub fn run_lines(bytes: &[u8], store: &mut [i64]) -> Result<usize, Refusal>
    ensures { Running bytes.now store.old result store.new }
{
    let n = pass(bytes, &mut [])?;
    if store.len() / ENTRIES_EACH < n {
        return Err(Refusal::NoRoom(ENTRIES_EACH.saturating_mul(n)));
    }
    pass(bytes, store)
}

// Runs all annotations, unless one is refused, and counts the records. Those that have room are written.
fn pass(bytes: &[u8], store: &mut [i64]) -> Result<usize, Refusal>
    ensures { Passing bytes.now store.old result store.new }
{
    let mut state = State::new();
    let mut at = 0;
    let mut i = 0;
    let mut n = 0;
    loop {
        match operands_at(bytes, at) {
            Step::Annotation(a) => {
                let Some(after) = turn(state, a.opcode, a.first, a.second) else {
                    return Err(Refusal::BadLine(i));
                };
                n = put(store, n, after.closed);
                state = after.state;
                at = a.next;
                i += 1;
            }
            Step::End(_) => return Ok(put(store, n, state.last)),
            Step::Refused(why) => return Err(Refusal::Annotation(why)),
        }
    }
}
