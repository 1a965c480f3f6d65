//! The line of a record that tells the reply of a command's request.
ghost use Rattle.std.specs.Prelude.{◌≡◌, ◌++◌, ◌∷◌, [], IfOk, string_bytes};
ghost use Rattle.rv_run.specs.calls.Records.{record_text};
ghost use Rattle.rv_commands.specs.Records.{reply_line};

use rv_text::{Call, Key, NoMemory, Reply, encode_reply_in, encode_request};
use std::alloc::Global;

/// The line of a record that tells the request of this key with this call, and its reply. Fails only if
/// memory was refused.
pub fn record_line(alloc: Global, key: &Key, call: &Call, reply: &Reply) -> Result<String, NoMemory>
    ensures { IfOk result (λ text. string_bytes text ≡ reply_line key.now call.now reply.now) }
{
    let asked = encode_request(alloc, key, call)?;
    let told = encode_reply_in(Vec::new(alloc), key, reply)?;
    line_of(alloc, asked.as_str(), told.as_str())
}

// The line that tells these two bodies.
fn line_of(alloc: Global, asked: &str, told: &str) -> Result<String, NoMemory>
    ensures { IfOk result (λ text. string_bytes text ≡ record_text asked.now told.now ++ 10 ∷ []) }
{
    format!(in alloc; "{{\"asked\":{asked},\"told\":{told}}}\n")
}
