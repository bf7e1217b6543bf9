// The sheets that a line of the list of plans has, put into the slots of a work buffer.
#![tactic(auto)]

ghost use Rattle.std.specs.Prelude.{◌≡◌, true, ◌<◌};
ghost use Rattle.std.proofs.Math.Option.{some};
ghost use Rattle.plan_form.specs.Form.{node_limit};
ghost use Rattle.slots.specs.Sheets.{placed, Lays, LaidOut};

// What stands between two sheets.
const COMMA: u8 = b',';

// Puts the bytes of a text at the start of slot k; false where it is no text of bytes, or they have no place in the slot.
fn put_sheet(s: &[u8], k: usize, buf: &mut [u8]) -> bool
    requires { k < node_limit }
    ensures { result ≡ true → placed s.now k buf.old ≡ some buf.new }
{
    let start = k * plan_leaves::SLOT;
    if buf.len() < start {
        return false;
    }
    let Some(n) = lines::bytes_of(s, &mut buf[start..]) else {
        return false;
    };
    n <= plan_leaves::SLOT
}

// Puts the sheets of a field into the slots from `slot` on, and gives the slot behind the last one.
fn put_sheets(s: &[u8], slot: usize, buf: &mut [u8]) -> Option<usize>
    ensures { Lays result s.now slot buf.old buf.new }
{
    if s == lines::NO_BYTES {
        return Some(slot);
    }
    let mut k = slot;
    for text in s.split(|b| *b == COMMA) {
        if k >= plan_form::NODE_LIMIT || !put_sheet(text, k, buf) {
            return None;
        }
        k += 1;
    }
    Some(k)
}

// How many leaves a line has. They stand in both buffers, and the derived sheets in `expected` alone, so that every other byte has to be as it was.
pub fn laid_out(line: &[u8], work: &mut [u8], expected: &mut [u8]) -> Option<usize>
    ensures { LaidOut result line.now work.old work.new expected.old expected.new }
{
    let leaves = lines::field(line, 2);
    let k = put_sheets(leaves, 0, work)?;
    put_sheets(leaves, 0, expected)?;
    put_sheets(lines::field(line, 5), k, expected)?;
    Some(k)
}
