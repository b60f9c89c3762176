//! The lines of clients and of actors.

ghost use Rattle.std.specs.Prelude.{◌≡◌, ◌<◌, ◌^◌, ◌∷◌, ◌++◌, [], codes, decimal, OnOk, take, vec_len};
ghost use Rattle.pf_journal.specs.Replies.{line_text};
ghost use Rattle.pf_journal.specs.Report.{actor_text, actors_from};

use crate::word::{Word, push_line};
use pf_base::OutOfMemory;

/// Appends the line above a client's replies. Clients count from 0.
pub fn push_client(out: &mut Vec<u8>, client: u32) -> Result<(), OutOfMemory>
    ensures ok { OnOk result (out.new.items ≡ out.old.items ++ line_text (codes "client" ∷ decimal client ∷ [])) }
    ensures kept { take (vec_len out.old) out.new.items ≡ out.old.items }
{
    let words = [Word::Text("client"), Word::Number(u64::from(client))];
    push_line(out, &words)
}

/// Appends the line of an actor with failed tries, and nothing without one.
fn push_actor(out: &mut Vec<u8>, actor: u64, failed: u64) -> Result<(), OutOfMemory>
    ensures ok { OnOk result (out.new.items ≡ out.old.items ++ actor_text actor failed) }
    ensures kept { take (vec_len out.old) out.new.items ≡ out.old.items }
{
    if failed == 0 {
        return Ok(());
    }
    let words = [
        Word::Text("actor"),
        Word::Number(actor),
        Word::Text("failed"),
        Word::Number(failed),
    ];
    push_line(out, &words)
}

/// Appends a line for each actor with failed tries. The numbers of tries stand by the actors' numbers, from 0.
pub fn push_actors(out: &mut Vec<u8>, failed: &[u64]) -> Result<(), OutOfMemory>
    ensures ok { OnOk result (out.new.items ≡ out.old.items ++ actors_from 0 failed.now) }
    ensures kept { take (vec_len out.old) out.new.items ≡ out.old.items }
{
    for (actor, tries) in failed.iter().enumerate() {
        push_actor(out, actor as u64, *tries)?;
    }
    Ok(())
}
