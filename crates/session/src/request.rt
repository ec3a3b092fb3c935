// A request: a record, and the write budget that it is called with.
ghost use Rattle.std.specs.Prelude.{◌≡◌};
ghost use Rattle.model.specs.Program.{read_budget, read_request};
ghost use Rattle.record.specs.Reads.{reading_of};
ghost use Rattle.session.specs.RequestRead.{source_of, requested};

use model::{FULL_BUDGET, Record};

// Where a call's budget comes from: full current, or 4 bytes before each record.
// It is a kind and no closure: what `play` and `requests` promise names the definitions' own kind.
#[derive(Clone, Copy)]
pub enum BudgetSource {
    Full,
    Given,
}

#[derive(Clone, Copy)]
pub struct Request {
    pub record: Record,
    pub budget: u32,
}

// The budget that the bytes begin with, lowest byte first, and the bytes after it.
#[tactic(auto, unfolding(model::specs::Program::read_budget, model::specs::Record::read_body))]
fn budget(source: BudgetSource, bytes: &[u8]) -> Option<(u32, &[u8])>
    ensures { reading_of result ≡ read_budget (source_of source) bytes.now }
{
    if let BudgetSource::Full = source {
        return Some((FULL_BUDGET, bytes));
    }
    let [a, b, c, d, rest @ ..] = bytes else {
        return None;
    };
    Some((u32::from_le_bytes([*a, *b, *c, *d]), rest))
}

// The request that the bytes begin with, and the bytes after it. Where there is none, that is refusal 7. (No `?`: each
// reading is taken apart with `let .. else`, a form that document 01 names.)
pub fn read(source: BudgetSource, bytes: &[u8]) -> Option<(Request, &[u8])>
    ensures { requested result ≡ read_request (source_of source) bytes.now }
{
    let Some((budget, content)) = budget(source, bytes) else {
        return None;
    };
    let Ok(record) = record::read(content) else {
        return None;
    };
    Some((Request { record, budget }, record::rest(content)))
}
