//! Errors of kinds, and their texts.

ghost use Rattle.std.specs.Prelude.{◌≡◌, ◌++◌, codes, take, vec_len, OnErr, OnOk};
ghost use Rattle.std.specs.Str.{IsUtf8};
ghost use Rattle.pf_model.specs.ErrorTexts.{fault_text, kind_name, node_text};
ghost use Rattle.pf_types.specs.Faults.{fault_of};

use itoa::Buffer;
use pf_base::OutOfMemory;
use pf_model::Kind;

/// What is wrong with a query. `at` is a node's number in preorder, from 0 on; past the greatest `u32` it is that one.
#[derive(Clone, Copy, Debug)]
pub enum TypeError {
    /// Too few or too many arguments: 0 in `abs()`.
    ArgCount { at: u32 },
    /// An operand's kind is not the one that is wanted: 0 in `rate(x)`. Where a scalar is as welcome as an instant vector,
    /// the latter is named.
    Wrong { at: u32, wanted: Kind, found: Kind },
    /// A text that is to name a label is no label's name: 0 in `label_join(x, "a-b", ",", "c")`.
    BadName { at: u32 },
    /// A comparison of two scalars without `bool`: 0 in `1 < 2`.
    BoolNeeded { at: u32 },
    /// A clause on labels that this operator can't have between these operands: 0 in `x + on (job) 1`.
    BadMatching { at: u32 },
    /// A subquery's range is over 11,000 resolutions: 0 in `x[11001s:1s]`.
    SubqueryTooFine { at: u32 },
}

fn kind_name(kind: Kind) -> &'static str
    ensures { result.now ≡ kind_name kind }
{
    match kind {
        Kind::Scalar => "scalar",
        Kind::Instant => "instant vector",
        Kind::Range => "range vector",
        Kind::Text => "string",
    }
}

/// Appends a node's number and what is wrong with it.
fn push_node(out: &mut Vec<u8>, at: u32, what: &str) -> Result<(), OutOfMemory>
    ensures ok { OnOk result (out.new.items ≡ out.old.items ++ node_text at what.now) }
    ensures utf8 { OnOk result (IsUtf8 out.old.items → IsUtf8 out.new.items) }
    ensures kept { take (vec_len out.old) out.new.items ≡ out.old.items }
{
    let mut buffer = Buffer::new();
    out.extend_from_slice("node ".as_bytes())?;
    out.extend_from_slice(buffer.format(at).as_bytes())?;
    out.extend_from_slice(what.as_bytes())?;
    Ok(())
}

fn push_kinds(out: &mut Vec<u8>, wanted: Kind, found: Kind) -> Result<(), OutOfMemory>
    ensures ok { OnOk result (out.new.items ≡ out.old.items ++ (kind_name wanted ++ (codes ", found " ++ kind_name found))) }
    ensures utf8 { OnOk result (IsUtf8 out.old.items → IsUtf8 out.new.items) }
    ensures kept { take (vec_len out.old) out.new.items ≡ out.old.items }
{
    out.extend_from_slice(kind_name(wanted).as_bytes())?;
    out.extend_from_slice(", found ".as_bytes())?;
    out.extend_from_slice(kind_name(found).as_bytes())?;
    Ok(())
}

fn push_wrong(out: &mut Vec<u8>, at: u32, wanted: Kind, found: Kind) -> Result<(), OutOfMemory>
    ensures ok { OnOk result (out.new.items ≡ out.old.items ++ node_text at (codes ": wanted " ++ (kind_name wanted ++ (codes ", found " ++ kind_name found)))) }
    ensures utf8 { OnOk result (IsUtf8 out.old.items → IsUtf8 out.new.items) }
    ensures kept { take (vec_len out.old) out.new.items ≡ out.old.items }
{
    push_node(out, at, ": wanted ")?;
    push_kinds(out, wanted, found)
}

fn push_error(out: &mut Vec<u8>, error: TypeError) -> Result<(), OutOfMemory>
    ensures ok { OnOk result (out.new.items ≡ out.old.items ++ fault_text (fault_of error)) }
    ensures utf8 { OnOk result (IsUtf8 out.old.items → IsUtf8 out.new.items) }
    ensures kept { take (vec_len out.old) out.new.items ≡ out.old.items }
{
    match error {
        TypeError::ArgCount { at } => push_node(out, at, ": wrong number of arguments"),
        TypeError::Wrong { at, wanted, found } => push_wrong(out, at, wanted, found),
        TypeError::BadName { at } => push_node(out, at, ": bad label name"),
        TypeError::BoolNeeded { at } => push_node(out, at, ": bool needed"),
        TypeError::BadMatching { at } => push_node(out, at, ": bad matching"),
        TypeError::SubqueryTooFine { at } => push_node(out, at, ": subquery too fine"),
    }
}

impl TypeError {
    /// Appends the text, as `node 3: wanted scalar, found instant vector`.
    pub fn push_text(&self, out: &mut Vec<u8>) -> Result<(), OutOfMemory>
        ensures ok { OnOk result (out.new.items ≡ out.old.items ++ fault_text (fault_of self.now)) }
        ensures utf8 { OnOk result (IsUtf8 out.old.items → IsUtf8 out.new.items) }
        ensures err { OnErr result (out.new.items ≡ out.old.items) }
    {
        let before = out.len();
        match push_error(out, *self) {
            Ok(()) => Ok(()),
            Err(error) => {
                out.truncate(before);
                Err(error)
            }
        }
    }
}
