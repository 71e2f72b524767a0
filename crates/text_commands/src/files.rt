//! The commands on files.
ghost use Rattle.doc_book.specs.Texts.{AreLive, plain};
ghost use Rattle.edge_io.specs.Causes.{HasIncreased};
ghost use Rattle.report_text.specs.Reply.{refusal_text};
ghost use Rattle.script_syntax.specs.declared.form.Command.TheVariants as form;
ghost use Rattle.session_state.specs.Answers.{Answers, Stays};
ghost use Rattle.session_state.specs.CommandState.{at};
ghost use Rattle.session_state.specs.SessionState.{IsConsistent};
ghost use Rattle.slp_image.specs.Fields.{kind_of};
ghost use Rattle.slp_image.specs.Image.{image};
ghost use Rattle.slp_model.specs.Nodes.{Grows, IsLive, text_of};
ghost use Rattle.span_language.specs.Step.{IsWithin, load_size, open_size};
ghost use Rattle.span_language.specs.declared.told.Told.TheVariants as told;
ghost use Rattle.std.specs.Prelude.{◌≡◌, ◌<◌, ◌≤◌, ◌+◌, ◌++◌, [], true, length, take, IfOk, IfErr, List, OnOk, OnErr, Some, ℕ};
ghost use Rattle.text_commands.specs.Loading.{file_command, limit_of};
ghost use Rattle.text_commands.specs.Reading.{IsFilePrefix, IsLoadPaid, IsNextPiece, IsSound, IsFileRejection, MeansFile};
ghost use Rattle.text_commands.specs.Shown.{IsFileRejectionReply, Opens};

use crate::loaders::{Loading, Method, feed, finish, start};
use crate::reading::{FileRefusal, check_size};
use crate::writing::put_reply;
use doc_book::Docs;
use edge_io::Shelf;
use node_store::Store;
use report_text::{Refusal, opened_line, saved_line};
use session_state::{Answer, SessionState, reject, set_document};
use slp_image::{ImageRefusal, begins_image, read, write};
use slp_model::NodeId;
use span_language::Stop;
use span_types::{ByteList, NoMemory, Steps};
use std::alloc::Global;
use std::sync::ledger::Ledger;

/// The maximum length of a file for `load` and `share`, in bytes.
const MAX_LOAD: u64 = 1 << 32;

/// The maximum length of an image for `open` and `save`, in bytes.
const MAX_OPEN: u64 = 1 << 30;

/// The number of bytes of a file that are read at once. A function with such a buffer is never inlined, so that a line
/// needs stack for one buffer alone.
const PIECE: usize = 65_536;

/// Reads the next piece of a file, from offset `at`, and returns its length, which is 0 at the end. The file may have
/// at most `limit` bytes.
fn next_piece<F: Shelf>(
    shelf: &mut F,
    name: &[u8],
    limit: u64,
    at: u64,
    piece: &mut [u8],
) -> Result<usize, FileRefusal>
    requires within { at ≤ limit }
    requires room { 0 < length piece.old }
    ensures next { IfOk result (λ count. IsNextPiece (F.files shelf.old) name.now limit at count (take count piece.new)) }
    ensures count { IfOk result (λ count. (count ≤ length piece.new) × (at + count ≤ limit)) }
    ensures refused { IfErr result (IsFileRejection (F.files shelf.old) name.now limit) }
    ensures files { F.files shelf.new ≡ F.files shelf.old }
    ensures later { F.faults shelf.old ≤ F.faults shelf.new }
    ensures fault { IfErr result (λ why. why ≡ FileRefusal.Failed → HasIncreased (F.faults shelf.old) (F.faults shelf.new)) }
    ensures sound { IsSound result (F.faults shelf.old) (F.faults shelf.new) }
{
    let count = shelf.read_at(name, at, piece)?;
    if count as u64 > limit - at {
        return Err(FileRefusal::TooLong);
    }
    Ok(count)
}

/// Loads a file piece by piece, after its length was checked.
#[tactic(auto, using(crate::proofs::Facts::growing, crate::proofs::Facts::none_grows, crate::proofs::Facts::prefix_paid, crate::proofs::Facts::within_limit))]
#[inline(never)]
fn load_pieces<F: Shelf, P: Ledger>(
    alloc: Global,
    method: Method,
    store: &mut Store,
    name: &[u8],
    shelf: &mut F,
    pairs: &mut Steps<P>,
) -> Result<Option<NodeId>, FileRefusal>
    requires { IsFilePrefix (F.files shelf.old) name.now load_size [] }
    ensures grows { Grows store.old store.new pairs.old pairs.new }
    ensures live { IfOk result (λ root. IsLive store.new root) }
    ensures ok { IfOk result (λ root. IsWithin (F.files shelf.old) name.now load_size (text_of store.new root)) }
    ensures refused { IfErr result (IsFileRejection (F.files shelf.old) name.now load_size) }
    ensures cost { IfOk result (λ root. pairs.new ≤ pairs.old + limit_of method (length (text_of store.new root))) }
    ensures paid { OnErr result (IsLoadPaid method (F.files shelf.old) name.now pairs.old pairs.new) }
    ensures files { F.files shelf.new ≡ F.files shelf.old }
    ensures later { F.faults shelf.old ≤ F.faults shelf.new }
    ensures fault { IfErr result (λ why. why ≡ FileRefusal.Failed → HasIncreased (F.faults shelf.old) (F.faults shelf.new)) }
    ensures sound { IsSound result (F.faults shelf.old) (F.faults shelf.new) }
{
    let mut loader = start(alloc, method)?;
    let mut piece = [0u8; PIECE];
    let mut at = 0u64;
    loop {
        let count = next_piece(shelf, name, MAX_LOAD, at, &mut piece)?;
        if count == 0 {
            let root = finish(loader, store, pairs)?;
            return Ok(root);
        }
        feed(&mut loader, store, &piece[..count], pairs)?;
        at += count as u64;
    }
}

/// Loads a file of at most 2^32 bytes.
#[tactic(auto, using(crate::proofs::Facts::none_grows))]
fn load_from<F: Shelf, P: Ledger>(
    alloc: Global,
    method: Method,
    store: &mut Store,
    name: &[u8],
    shelf: &mut F,
    pairs: &mut Steps<P>,
) -> Result<Option<NodeId>, FileRefusal>
    ensures grows { Grows store.old store.new pairs.old pairs.new }
    ensures live { IfOk result (λ root. IsLive store.new root) }
    ensures ok { IfOk result (λ root. IsWithin (F.files shelf.old) name.now load_size (text_of store.new root)) }
    ensures refused { IfErr result (IsFileRejection (F.files shelf.old) name.now load_size) }
    ensures cost { IfOk result (λ root. pairs.new ≤ pairs.old + limit_of method (length (text_of store.new root))) }
    ensures paid { OnErr result (IsLoadPaid method (F.files shelf.old) name.now pairs.old pairs.new) }
    ensures files { F.files shelf.new ≡ F.files shelf.old }
    ensures later { F.faults shelf.old ≤ F.faults shelf.new }
    ensures fault { IfErr result (λ why. why ≡ FileRefusal.Failed → HasIncreased (F.faults shelf.old) (F.faults shelf.new)) }
    ensures sound { IsSound result (F.faults shelf.old) (F.faults shelf.new) }
{
    check_size(shelf, name, MAX_LOAD)?;
    let root = load_pieces(alloc, method, store, name, shelf, pairs)?;
    Ok(root)
}

/// The reply for a file that doesn't exist, can't be read, or is too long.
fn rejected_file(
    alloc: Global,
    number: u64,
    file: ByteList,
    why: FileRefusal,
) -> Result<Answer, Stop>
    ensures ok { IfOk result (λ answer. IsFileRejectionReply number file why answer.told answer.line.items) }
    ensures fault { IfErr result (λ stop. stop ≡ Stop.ShelfFault → why ≡ FileRefusal.Failed) }
    ensures out_fault { IfErr result (λ stop. stop ≡ Stop.OutFault → ⊥) }
{
    let why = match why {
        FileRefusal::Absent => Refusal::NoSuchFile { file },
        FileRefusal::Denied => Refusal::CannotRead { file },
        FileRefusal::TooLong => Refusal::FileTooLong { file },
        FileRefusal::Failed => return Err(Stop::ShelfFault),
        FileRefusal::NoMemory => return Err(Stop::NoMemory),
    };
    let answer = Answer::refused(alloc, number, &why)?;
    Ok(answer)
}

/// `load NAME FILE` and `share NAME FILE`
#[tactic(auto, using(crate::proofs::Facts::growing))]
pub fn load_file<F: Shelf, P: Ledger>(
    session: &mut SessionState,
    number: u64,
    loading: Loading,
    shelf: &mut F,
    pairs: &mut Steps<P>,
) -> Result<Answer, Stop>
    requires { IsConsistent session.old }
    ensures done { (looks places : ℕ) → IfOk result
        (Answers (at session.old (F.files shelf.old) (F.faults shelf.old) looks pairs.old places) number (file_command loading.method loading.name loading.file)
        (at session.new (F.files shelf.new) (F.faults shelf.new) looks pairs.new places)) }
    ensures stopped { (looks places : ℕ) → IfErr result
        (Stays (at session.old (F.files shelf.old) (F.faults shelf.old) looks pairs.old places) number (file_command loading.method loading.name loading.file)
        (at session.new (F.files shelf.new) (F.faults shelf.new) looks pairs.new places)) }
{
    let Loading { name, file, method } = loading;
    match load_from(
        session.alloc,
        method,
        &mut session.store,
        file.bytes(),
        shelf,
        pairs,
    ) {
        Ok(root) => {
            let answer = set_document(
                session.alloc,
                &session.store,
                &mut session.docs,
                name,
                root,
            )?;
            Ok(answer)
        }
        Err(why) => rejected_file(session.alloc, number, file, why),
    }
}

/// Appends a piece to the bytes.
fn push_piece(bytes: &mut Vec<u8>, piece: &[u8]) -> Result<(), NoMemory>
    ensures { OnOk result (bytes.new.items ≡ bytes.old.items ++ piece.now) }
{
    bytes.extend_from_slice(piece)?;
    Ok(())
}

/// Whether a file with these first bytes is no image, whatever follows them.
fn is_no_image(prefix: &[u8]) -> bool
    ensures { result ≡ true → (rest : List ℕ) → image (prefix.now ++ rest) ≡ image prefix.now }
{
    prefix.len() >= 4 && !begins_image(prefix)
}

/// Reads a file piece by piece, after its length was checked. Stops when the first bytes show that it is no image.
#[tactic(auto, using(crate::proofs::Facts::prefix_means, crate::proofs::Facts::whole_means))]
#[inline(never)]
fn read_pieces<F: Shelf>(alloc: Global, name: &[u8], shelf: &mut F) -> Result<Vec<u8>, FileRefusal>
    requires { IsFilePrefix (F.files shelf.old) name.now open_size [] }
    ensures ok { IfOk result (λ bytes. MeansFile (F.files shelf.old) name.now bytes.items) }
    ensures refused { IfErr result (IsFileRejection (F.files shelf.old) name.now open_size) }
    ensures files { F.files shelf.new ≡ F.files shelf.old }
    ensures later { F.faults shelf.old ≤ F.faults shelf.new }
    ensures fault { IfErr result (λ why. why ≡ FileRefusal.Failed → HasIncreased (F.faults shelf.old) (F.faults shelf.new)) }
    ensures sound { IsSound result (F.faults shelf.old) (F.faults shelf.new) }
{
    let mut bytes = Vec::new(alloc);
    let mut piece = [0u8; PIECE];
    loop {
        if is_no_image(&bytes) {
            return Ok(bytes);
        }
        let count = next_piece(shelf, name, MAX_OPEN, bytes.len() as u64, &mut piece)?;
        if count == 0 {
            return Ok(bytes);
        }
        push_piece(&mut bytes, &piece[..count])?;
    }
}

/// Reads a file of at most 2^30 bytes: all of it, or only the first bytes if they show that it is no image. The result
/// of reading an image is the same.
fn read_file<F: Shelf>(alloc: Global, name: &[u8], shelf: &mut F) -> Result<Vec<u8>, FileRefusal>
    ensures ok { IfOk result (λ bytes. MeansFile (F.files shelf.old) name.now bytes.items) }
    ensures refused { IfErr result (IsFileRejection (F.files shelf.old) name.now open_size) }
    ensures files { F.files shelf.new ≡ F.files shelf.old }
    ensures later { F.faults shelf.old ≤ F.faults shelf.new }
    ensures fault { IfErr result (λ why. why ≡ FileRefusal.Failed → HasIncreased (F.faults shelf.old) (F.faults shelf.new)) }
    ensures sound { IsSound result (F.faults shelf.old) (F.faults shelf.new) }
{
    check_size(shelf, name, MAX_OPEN)?;
    let bytes = read_pieces(alloc, name, shelf)?;
    Ok(bytes)
}

/// The reply to bytes that are no valid image.
fn rejected_image(alloc: Global, number: u64, why: ImageRefusal) -> Result<Answer, NoMemory>
    ensures { IfOk result (λ answer. (answer.told ≡ told.Refused)
        × ((kind : ℕ) × (kind_of why ≡ Some kind) × (answer.line.items ≡ refusal_text number (Refusal.BadImage kind)))) }
{
    let Some(kind) = why.kind() else {
        return Err(NoMemory);
    };
    let answer = Answer::refused(alloc, number, &Refusal::BadImage { kind })?;
    Ok(answer)
}

/// Replaces all documents by those of an image.
#[tactic(auto, using(crate::proofs::Facts::growing))]
fn open_image<P: Ledger>(
    alloc: Global,
    store: &mut Store,
    docs: &mut Docs,
    number: u64,
    bytes: &[u8],
    pairs: &mut Steps<P>,
) -> Result<Answer, NoMemory>
    requires { AreLive store.old docs.old }
    ensures live { IfOk result (λ _. AreLive store.new docs.new) }
    ensures grows { Grows store.old store.new pairs.old pairs.new }
    ensures ok { IfOk result (λ answer. Opens (plain store.old docs.old) number
        (image bytes.now).answer answer.told answer.line.items (plain store.new docs.new)) }
    ensures err { OnErr result (docs.new ≡ docs.old) }
    ensures cost { pairs.new ≤ pairs.old + (image bytes.now).cost }
{
    match read(alloc, bytes, store, pairs) {
        Ok(opened) => {
            let mut line = Vec::new(alloc);
            opened_line(alloc, opened.count() as u64, &mut line)?;
            *docs = opened;
            Ok(Answer::accepted(line))
        }
        Err(why) => {
            let answer = rejected_image(alloc, number, why)?;
            Ok(answer)
        }
    }
}

/// `open FILE`
pub fn open_file<F: Shelf, P: Ledger>(
    session: &mut SessionState,
    number: u64,
    file: ByteList,
    shelf: &mut F,
    pairs: &mut Steps<P>,
) -> Result<Answer, Stop>
    requires { IsConsistent session.old }
    ensures done { (looks places : ℕ) → IfOk result
        (Answers (at session.old (F.files shelf.old) (F.faults shelf.old) looks pairs.old places) number (form.OpenFile file)
        (at session.new (F.files shelf.new) (F.faults shelf.new) looks pairs.new places)) }
    ensures stopped { (looks places : ℕ) → IfErr result
        (Stays (at session.old (F.files shelf.old) (F.faults shelf.old) looks pairs.old places) number (form.OpenFile file)
        (at session.new (F.files shelf.new) (F.faults shelf.new) looks pairs.new places)) }
{
    match read_file(session.alloc, file.bytes(), shelf) {
        Ok(bytes) => {
            let answer = open_image(
                session.alloc,
                &mut session.store,
                &mut session.docs,
                number,
                &bytes,
                pairs,
            )?;
            Ok(answer)
        }
        Err(why) => rejected_file(session.alloc, number, file, why),
    }
}

/// `save FILE`
#[tactic(auto, using(crate::proofs::Facts::stays_freely))]
pub fn save_file<F: Shelf>(
    session: &mut SessionState,
    number: u64,
    file: ByteList,
    shelf: &mut F,
) -> Result<Answer, Stop>
    requires { IsConsistent session.old }
    ensures done { (looks pairs places : ℕ) → IfOk result
        (Answers (at session.old (F.files shelf.old) (F.faults shelf.old) looks pairs places) number (form.SaveFile file)
        (at session.new (F.files shelf.new) (F.faults shelf.new) looks pairs places)) }
    ensures stopped { (looks pairs places : ℕ) → IfErr result
        (Stays (at session.old (F.files shelf.old) (F.faults shelf.old) looks pairs places) number (form.SaveFile file)
        (at session.new (F.files shelf.new) (F.faults shelf.new) looks pairs places)) }
{
    let image = write(session.alloc, &session.docs, &session.store)?;
    if image.bytes.len() as u64 > MAX_OPEN {
        return reject(session, number, &Refusal::FileTooLong { file });
    }
    let mut line = Vec::new(session.alloc);
    saved_line(
        session.alloc,
        session.docs.count() as u64,
        image.nodes,
        &mut line,
    )?;
    let outcome = shelf.put(file.bytes(), &image.bytes);
    put_reply(session.alloc, number, file, line, outcome)
}
