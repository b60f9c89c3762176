//! What a script names: files and queries.

ghost use Rattle.std.specs.Prelude.{◌≡◌, ◌≢◌, ◌≤◌, ℕ, Bool, Err, IfErr, IfOk, List, MatchOption, OnOk, Option, Some, None, [], false, length, map, true};
ghost use Rattle.std.specs.BTreeMap.{get_by_text};
ghost use Rattle.pf_io.specs.Outside.{Holds, LongerThan, StayKnown};
ghost use Rattle.pf_journal.specs.Scripts.{most_bytes};
ghost use Rattle.pf_script.specs.Lines.{AllFollow, lines_of, numbered_of};
ghost use Rattle.pf_client.specs.Replays.{HasFailed, Reaches, files_of};
ghost use Rattle.pf_client.specs.Files.{AreLoaded, AreThere, AreTold, IsLoaded, IsNoted, IsUnread, LetsGo, LineNames, TellsContent};
ghost use Rattle.pf_client.specs.declared.loaded.LoadError.{LoadError};

use crate::queries::Queries;
use pf_base::Text;
use pf_io::{Files, ReadError};
use pf_script::{Line, NumberedLine, Script};
use std::alloc::{AllocError, AllocFailed, Global};
use std::collections::BTreeMap;

/// The greatest length of a script or a file, in bytes.
pub const MOST_BYTES: usize = 67_108_864;

/// What a file holds.
#[derive(Drop)]
pub enum Content {
    Bytes(Vec<u8>),
    /// More bytes than a file may have.
    TooLong,
}

/// A file that was read.
#[derive(Drop)]
pub struct ReadFile {
    pub content: Content,
    /// The number of the last line of the script that names it, 0 where none does.
    pub last: u32,
}

/// Files that were read, by name.
pub type Contents = BTreeMap<String, ReadFile>;

/// What a script names: its files that are still needed, and how its queries are read.
#[derive(Drop)]
pub struct Loaded {
    pub files: Contents,
    pub queries: Queries,
}

/// A file was not read, or memory ran out.
#[derive(Drop)]
pub enum LoadError {
    Unread { name: Text },
    OutOfMemory,
}

impl From<pf_base::OutOfMemory> for LoadError {
    ghost use Rattle.std.specs.Prelude.{◌≡◌};
    ghost use Rattle.pf_client.specs.declared.loaded.LoadError.TheVariants.{OutOfMemory};

    ghost from_gives = { λ _ e. e ≡ OutOfMemory };

    fn from(_error: pf_base::OutOfMemory) -> LoadError {
        LoadError::OutOfMemory
    }
}

impl From<AllocError> for LoadError {
    ghost use Rattle.std.specs.Prelude.{◌≡◌};
    ghost use Rattle.pf_client.specs.declared.loaded.LoadError.TheVariants.{OutOfMemory};

    ghost from_gives = { λ _ e. e ≡ OutOfMemory };

    fn from(_error: AllocError) -> LoadError {
        LoadError::OutOfMemory
    }
}

impl<T: Drop> From<AllocFailed<T>> for LoadError {
    ghost use Rattle.std.specs.Prelude.{◌≡◌};
    ghost use Rattle.pf_client.specs.declared.loaded.LoadError.TheVariants.{OutOfMemory};

    ghost from_gives = { λ _ e. e ≡ OutOfMemory };

    fn from(_error: AllocFailed<T>) -> LoadError {
        LoadError::OutOfMemory
    }
}

/// What a file holds, of at most 64 MiB.
#[tactic(auto, using(crate::proofs::Texts::not_lost, crate::proofs::Texts::has_failed))]
pub fn read_file<F: Files>(alloc: Global, files: &mut F, name: &str) -> Result<Content, ReadError>
    ensures contents { IfOk result (TellsContent (F.told files.old name.now)) }
    ensures failed { result ≡ Err ReadError.Failed → HasFailed (F.sure files.old) (F.faults files.old) (F.faults files.new) (F.failed files.new) name.now }
    ensures there { result ≢ Err ReadError.Failed → F.lost files.old name.now ≡ false }
    ensures steady { result ≢ Err ReadError.Failed → F.faults files.new ≡ F.faults files.old }
    ensures short { result ≡ Err ReadError.TooLong → ⊥ }
    ensures counted { F.faults files.old ≤ F.faults files.new }
    ensures kept { (other : List ℕ) → F.told files.new other ≡ F.told files.old other }
    ensures kept_sure { StayKnown (F.sure files.old) (F.sure files.new) }
    ensures kept_lost { (other : List ℕ) → F.lost files.new other ≡ F.lost files.old other }
{
    let mut bytes = Vec::new(alloc);
    match files.read(name, &mut bytes, MOST_BYTES) {
        Ok(()) => Ok(Content::Bytes(bytes)),
        Err(ReadError::TooLong) => Ok(Content::TooLong),
        Err(ReadError::Failed) => Err(ReadError::Failed),
        Err(ReadError::OutOfMemory) => Err(ReadError::OutOfMemory),
    }
}

/// What is kept of a file.
fn file_of<'a>(loaded: &'a Contents, name: &str) -> Option<&'a ReadFile>
    ensures { MatchOption result (get_by_text loaded.now name.now ≡ None) (λ f. get_by_text loaded.now name.now ≡ Some f.now) }
{
    loaded.get(name)
}

/// Lets a file go, unless a line behind that of the number names it.
pub fn let_go(loaded: &mut Contents, name: &str, number: u32)
    ensures { LetsGo loaded.old name.now number loaded.new }
{
    let Some(file) = file_of(loaded, name) else {
        return;
    };
    if file.last <= number {
        loaded.remove(name);
    }
}

/// Adds a file under its name.
fn insert(alloc: Global, loaded: &mut Contents, name: &str, file: ReadFile) -> Result<(), LoadError>
    ensures added { OnOk result (get_by_text loaded.new name.now ≡ Some file) }
    ensures others { OnOk result ((other : List ℕ) → other ≢ name.now → get_by_text loaded.new other ≡ get_by_text loaded.old other) }
    ensures memory { IfErr result (λ e. e ≡ LoadError.OutOfMemory) }
{
    loaded.insert(String::from_str(alloc, name)?, file)?;
    Ok(())
}

/// Notes that a further line names a file: whether the file is kept.
fn note(loaded: &mut Contents, name: &str, number: u32) -> bool
    ensures noted { result ≡ true → IsNoted loaded.old name.now number loaded.new }
    ensures absent { result ≡ false → get_by_text loaded.old name.now ≡ None }
    ensures untouched { result ≡ false → loaded.new ≡ loaded.old }
{
    match loaded.get_mut(name) {
        Some(file) => {
            file.last = number;
            true
        }
        None => false,
    }
}

/// One file under its name, which no line names so far.
pub fn only(alloc: Global, name: &str, content: Content) -> Result<Contents, LoadError>
    ensures there { IfOk result (λ loaded. get_by_text loaded name.now ≡ Some (record { content = content; last = 0 })) }
    ensures held { IfOk result (λ loaded. (told : List ℕ → Option (List ℕ)) → TellsContent (told name.now) content → AreTold told loaded) }
    ensures present { IfOk result (λ loaded. (lost : List ℕ → Bool) → lost name.now ≡ false → AreThere lost loaded) }
    ensures memory { IfErr result (λ e. e ≡ LoadError.OutOfMemory) }
{
    let mut loaded = BTreeMap::new(alloc);
    insert(alloc, &mut loaded, name, ReadFile { content, last: 0 })?;
    Ok(loaded)
}

/// Reads the file that a line names, where it was not read before.
fn load_one<F: Files>(
    alloc: Global,
    files: &mut F,
    loaded: &mut Contents,
    name: &Text,
    number: u32,
) -> Result<(), LoadError>
    requires held { AreTold (F.told files.old) loaded.old }
    requires there { AreThere (F.lost files.old) loaded.old }
    ensures ok { OnOk result (IsLoaded (F.told files.old) (F.lost files.old) loaded.old (λ n. name.now ≡ n) number loaded.new) }
    ensures err { IfErr result (IsUnread (λ n. n ≡ name.now) (F.sure files.old) (F.faults files.old) (F.faults files.new) (F.failed files.new)) }
    ensures steady { OnOk result (F.faults files.new ≡ F.faults files.old) }
    ensures counted { F.faults files.old ≤ F.faults files.new }
    ensures kept { (other : List ℕ) → F.told files.new other ≡ F.told files.old other }
    ensures kept_sure { StayKnown (F.sure files.old) (F.sure files.new) }
    ensures kept_lost { (other : List ℕ) → F.lost files.new other ≡ F.lost files.old other }
{
    if note(loaded, name.as_str(), number) {
        return Ok(());
    }
    match read_file(alloc, files, name.as_str()) {
        Ok(content) => {
            let file = ReadFile {
                content,
                last: number,
            };
            insert(alloc, loaded, name.as_str(), file)?;
            Ok(())
        }
        Err(ReadError::OutOfMemory) => Err(LoadError::OutOfMemory),
        Err(_) => Err(LoadError::Unread {
            name: name.clone()?,
        }),
    }
}

/// Reads the file that a line names.
fn load_for<F: Files>(
    alloc: Global,
    files: &mut F,
    loaded: &mut Contents,
    line: &NumberedLine,
) -> Result<(), LoadError>
    requires held { AreTold (F.told files.old) loaded.old }
    requires there { AreThere (F.lost files.old) loaded.old }
    ensures ok { OnOk result (IsLoaded (F.told files.old) (F.lost files.old) loaded.old (LineNames (numbered_of line.now).line) line.now.number loaded.new) }
    ensures err { IfErr result (IsUnread (LineNames (numbered_of line.now).line) (F.sure files.old) (F.faults files.old) (F.faults files.new) (F.failed files.new)) }
    ensures steady { OnOk result (F.faults files.new ≡ F.faults files.old) }
    ensures counted { F.faults files.old ≤ F.faults files.new }
    ensures kept { (other : List ℕ) → F.told files.new other ≡ F.told files.old other }
    ensures kept_sure { StayKnown (F.sure files.old) (F.sure files.new) }
    ensures kept_lost { (other : List ℕ) → F.lost files.new other ≡ F.lost files.old other }
{
    match &line.line {
        Line::Ingest { file, .. } => {
            load_one(alloc, files, loaded, file, line.number)?;
            Ok(())
        }
        _ => Ok(()),
    }
}

/// Reads each file that a script names, once and in the order of first mention, where it was not read before, and notes the
/// last line that names it.
pub fn load_all<F: Files>(
    alloc: Global,
    files: &mut F,
    loaded: &mut Contents,
    script: &Script,
) -> Result<(), LoadError>
    requires held { AreTold (F.told files.old) loaded.old }
    requires there { AreThere (F.lost files.old) loaded.old }
    requires following { AllFollow [] (lines_of script.now) }
    ensures ok { OnOk result (AreLoaded (F.told files.old) (F.lost files.old) loaded.old (lines_of script.now) loaded.new) }
    ensures err { IfErr result (IsUnread (Reaches (F.lost files.old) (files_of (lines_of script.now))) (F.sure files.old) (F.faults files.old) (F.faults files.new) (F.failed files.new)) }
    ensures steady { OnOk result (F.faults files.new ≡ F.faults files.old) }
    ensures counted { F.faults files.old ≤ F.faults files.new }
{
    for line in &script.lines {
        if let Err(error) = load_for(alloc, files, loaded, line) {
            return Err(error);
        }
    }
    Ok(())
}
