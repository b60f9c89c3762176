//! The JSON of an error.

ghost use Rattle.std.specs.Prelude.{◌≡◌, ◌∷◌, ◌++◌, [], codes, IfOk, OnOk, take, vec_len};
ghost use Rattle.json.specs.Token.{key, string};
ghost use Rattle.pf_model.specs.Json.{error_text};
ghost use Rattle.pf_report.specs.ErrorTokens.{error_members};

use json::Writer;
use pf_base::OutOfMemory;
use std::alloc::Global;

fn write_member(writer: &mut Writer, name: &str, text: &str) -> Result<(), OutOfMemory>
    ensures tokens { OnOk result (writer.new.tokens ≡ writer.old.tokens ++ key name.now ∷ (string text.now ∷ [])) }
    ensures before { writer.new.before ≡ writer.old.before }
{
    writer.key(name)?;
    writer.string(text)?;
    Ok(())
}

fn write_members(writer: &mut Writer, kind: &str, message: &str) -> Result<(), OutOfMemory>
    ensures tokens { OnOk result (writer.new.tokens ≡ writer.old.tokens ++ error_members kind.now message.now) }
    ensures before { writer.new.before ≡ writer.old.before }
{
    write_member(writer, "status", "error")?;
    write_member(writer, "errorType", kind)?;
    write_member(writer, "error", message)?;
    Ok(())
}

/// The body of an error of this kind.
fn error_json(alloc: Global, kind: &str, message: &str) -> Result<Vec<u8>, OutOfMemory>
    ensures { IfOk result (λ t. t.items ≡ error_text kind.now message.now) }
{
    let mut writer = Writer::new(Vec::new(alloc));
    writer.begin_object()?;
    write_members(&mut writer, kind, message)?;
    writer.end_object()?;
    Ok(writer.into_inner())
}

/// Appends the body of an error of this kind.
pub fn push_error(
    alloc: Global,
    out: &mut Vec<u8>,
    kind: &str,
    message: &str,
) -> Result<(), OutOfMemory>
    ensures ok { OnOk result (out.new.items ≡ out.old.items ++ error_text kind.now message.now) }
    ensures kept { take (vec_len out.old) out.new.items ≡ out.old.items }
{
    let body = error_json(alloc, kind, message)?;
    out.extend_from_slice(&body)?;
    Ok(())
}
