// What an entry asks for.
ghost use Rattle.std.specs.Prelude.{◌≡◌, IfOk};
ghost use Rattle.hs_asking.specs.Asking.{IsStatement};
ghost use Rattle.hs_entries.specs.Entry.{statement_of};
ghost use Rattle.hs_queue.specs.Entries.{entry_of};
ghost use Rattle.hs_read.specs.Read.{statement_in};
ghost use Rattle.hs_requested.specs.Asked as found;
ghost use Rattle.hs_requests.specs.Requests.{request_of};
ghost use Rattle.hs_schema.specs.Catalogue.{Text};
ghost use Rattle.hs_seams.specs.Calls.{IsEntry};
ghost use Rattle.hs_seams.specs.Stores.{IsTreeOf, asked_of};

use crate::meaning::place;
use hs_base::NoMemory;
use hs_queue::Entry;
use hs_requested::{Request, read_request};
use hs_seams::Asked;
use std::alloc::Global;

// The same, as an engine takes it.
fn as_asked(request: Request) -> Asked
    ensures asked { asked_of result ≡ found.asked request }
    ensures tree { (text : Text) → found.HasTree (statement_in (statement_of text)) request → IsTreeOf IsStatement result text }
{
    match request {
        Request::Faulty(why) => Asked::Faulty(why),
        Request::OfData(statement) => Asked::OfData(statement),
        Request::OfDefinition(statement) => Asked::OfDefinition(statement),
        Request::Starts(modes) => Asked::Starts(modes),
        Request::Commits => Asked::Commits,
        Request::RollsBack => Asked::RollsBack,
        Request::OnSettings(control) => Asked::OnSettings(control),
    }
}

/// What an entry asks for, by its text alone, with the tree of its statement. An `Err` is want of memory.
pub fn asked(alloc: Global, entry: &Entry) -> Result<Asked, NoMemory>
    requires { IsEntry entry.now }
    ensures asked { IfOk result (λ asked. asked_of asked ≡ request_of (entry_of entry.now).text) }
    ensures tree { IfOk result (λ asked. IsTreeOf IsStatement asked (entry_of entry.now).text) }
{
    let at = place(entry);
    let request = read_request(alloc, at, entry.text.as_str())?;
    Ok(as_asked(request))
}
