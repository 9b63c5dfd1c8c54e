// The program over any streams.
ghost use Rattle.std.specs.Prelude.{◌≡◌, ◌≢◌, All, None, Some, Ok, Err, IfOk, IfErr, OnOk, IfSome, IsSome, IsErrOf, map, option_map, if◌then◌else◌, ◌∷◌, []};
ghost use Rattle.std.specs.Io.KnownBytes.{Appends, IsAtEnd};
ghost use Rattle.std.specs.List.{AllZip};
ghost use Rattle.vortex_query.specs.Query.{Answered, Ends, IsOneOf, Says, Shows, asked_for, for_request, line_of, outcome, request_word as word_in, table_in};
ghost use Rattle.vortex_query.specs.Refused.{IsSpelledRequest, IsSpelledTable, RefusesAsked, RefusesInput, RefusesRequest, RefusesScan, RefusesWords, status_of};
ghost use Rattle.vortex_query.specs.Spelled.{table_seen};
ghost use Rattle.vortex_query.specs.declared.program.refusal.Refusal.TheVariants.{NotBuilt, ReadFailed, WriteFailed};
ghost use Rattle.vortex_buffer.specs.Counts.{Faulted};
ghost use Rattle.vortex_streams.specs.Known.{AppendsFront};
ghost use Rattle.vortex_table_types.specs.Answers.{Answers};
ghost use Rattle.vortex_table.specs.Given.{contents_of, given, question};
ghost use Rattle.vortex_table.specs.State.{ArrivesInOrder};
ghost use Rattle.vortex_table_types.specs.Table.{FitsPartition};
ghost use Rattle.vortex_scan_types.specs.Valid.{first_unknown};

mod refusal;

use crate::batches::rows_text;
use crate::options::Options;
use crate::request::{RequestError, request_of};
use crate::table_text::{TableTextError, table_of};
use refusal::Refusal;
use std::alloc::Global;
use vortex_buffer::Buffer;
use vortex_io::MemorySource;
use vortex_scan_types::{Batch, ScanRequest};
use vortex_streams::{ByteSink, ByteSource, ReadError, read_all, write_all};
use vortex_table::{Chunk, ScanError, Table, scan_table};

// The text of a request in the words `scan REQUEST`.
fn request_word(words: &[String]) -> Option<&str>
    ensures { option_map (λ word. word.now) result ≡ word_in words.now }
{
    match words {
        [command, request] if command.as_str() == "scan" => Some(request.as_str()),
        _ => None,
    }
}

// The request of the words.
fn request_in(alloc: Global, words: &[String]) -> Result<ScanRequest, Refusal>
    ensures ok { IfOk result (λ request. asked_for words.now ≡ Some request) }
    ensures spelled { IfOk result (λ request. IsSpelledRequest request) }
    ensures err { IfErr result (λ refusal. RefusesWords words.now refusal) }
    ensures words { word_in words.now ≡ None → result ≡ Err NotBuilt }
{
    let text = match request_word(words) {
        Some(text) => text,
        None => return Err(Refusal::NotBuilt),
    };
    match request_of(alloc, text) {
        Ok(request) => Ok(request),
        Err(RequestError::NotBuilt) => Err(Refusal::NotBuilt),
        Err(RequestError::OutOfMemory) => Err(Refusal::OutOfMemory),
    }
}

// The table of the input.
fn table_from<I: ByteSource>(
    alloc: Global,
    input: &mut I,
) -> Result<Table<MemorySource<Chunk>>, Refusal>
    ensures ok { IfOk result (λ table. IfSome (I.left input.old) (λ bytes. table_in bytes ≡ Some (table_seen table))) }
    ensures spelled { IfOk result (λ table. IsSpelledTable (table_seen table)) }
    ensures arrives { IfOk result (λ table. All ArrivesInOrder table.sources) }
    ensures fits { IfOk result (λ table. AllZip FitsPartition table.partitions (contents_of table.sources)) }
    ensures end { OnOk result (IsAtEnd (I.left input.new)) }
    ensures err { IfErr result (λ refusal. RefusesInput (I.left input.old) (I.faults input.old) (I.faults input.new) refusal) }
{
    let bytes = match read_all(alloc, input) {
        Ok(bytes) => bytes,
        Err(ReadError::OutOfMemory) => return Err(Refusal::OutOfMemory),
        Err(ReadError::ReadFault) => return Err(Refusal::ReadFailed),
        Err(ReadError::TooLong) => return Err(Refusal::NotBuilt),
    };
    match table_of(alloc, bytes.as_slice(), &Options::default()) {
        Ok(table) => Ok(table),
        Err(TableTextError::NotBuilt) => Err(Refusal::NotBuilt),
        Err(TableTextError::OutOfMemory) => Err(Refusal::OutOfMemory),
    }
}

// The batches of the rows that a request chooses of a table.
fn batches_of(
    alloc: Global,
    request: &ScanRequest,
    table: &mut Table<MemorySource<Chunk>>,
) -> Result<Vec<Batch>, Refusal>
    requires request { IsSpelledRequest request.now }
    requires table { IsSpelledTable (table_seen table.old) }
    requires arrives { All ArrivesInOrder table.old.sources }
    requires fits { AllZip FitsPartition table.old.partitions (contents_of table.old.sources) }
    ensures answers { IfOk result (λ batches. Answers (question table.old request.now) (map given batches.items)) }
    ensures known { OnOk result (first_unknown table.old.columns request.now ≡ None) }
    ensures columns { table.new.columns ≡ table.old.columns }
    ensures err { IfErr result (λ refusal. RefusesRequest table.old.columns request.now refusal) }
{
    let steps = table.enough_steps();
    match scan_table(alloc, table, request, steps) {
        Ok(batches) => Ok(batches),
        Err(why) => match &why {
            ScanError::InvalidRequest { .. } => Err(Refusal::UnknownColumn),
            ScanError::OutOfMemory => Err(Refusal::OutOfMemory),
            ScanError::NotBuilt => unreachable!(),
        },
    }
}

// The text of the rows that a request chooses of a table.
fn text_for(
    alloc: Global,
    request: &ScanRequest,
    table: &mut Table<MemorySource<Chunk>>,
) -> Result<Buffer<u8>, Refusal>
    requires request { IsSpelledRequest request.now }
    requires table { IsSpelledTable (table_seen table.old) }
    requires arrives { All ArrivesInOrder table.old.sources }
    requires fits { AllZip FitsPartition table.old.partitions (contents_of table.old.sources) }
    ensures shows { IfOk result (λ text. Shows (record { request = request.now; table = table_seen table.old }) text) }
    ensures known { OnOk result (first_unknown table.old.columns request.now ≡ None) }
    ensures err { IfErr result (λ refusal. RefusesRequest table.old.columns request.now refusal) }
{
    let batches = match batches_of(alloc, request, table) {
        Ok(batches) => batches,
        Err(refusal) => return Err(refusal),
    };
    match rows_text(
        alloc,
        table.columns(),
        &request.projection,
        batches.as_slice(),
    ) {
        Ok(text) => Ok(text),
        Err(_) => Err(Refusal::OutOfMemory),
    }
}

// The text that a request asks of the input.
fn answer_to<I: ByteSource>(
    alloc: Global,
    request: &ScanRequest,
    input: &mut I,
) -> Result<Buffer<u8>, Refusal>
    requires request { IsSpelledRequest request.now }
    ensures answered { IfOk result (λ text. IfSome (I.left input.old) (Answered (for_request (Some request.now)) (λ shown. text ≡ shown))) }
    ensures end { OnOk result (IsAtEnd (I.left input.new)) }
    ensures refused { IfErr result (λ refusal. RefusesAsked (for_request (Some request.now)) (I.left input.old) refusal) }
    ensures read { IsErrOf result ReadFailed → Faulted (I.faults input.old) (I.faults input.new) }
    ensures unwritten { IfErr result (λ refusal. refusal ≢ WriteFailed) }
{
    let mut table = match table_from(alloc, input) {
        Ok(table) => table,
        Err(refusal) => return Err(refusal),
    };
    match text_for(alloc, request, &mut table) {
        Ok(text) => Ok(text),
        Err(refusal) => Err(refusal),
    }
}

// The text that the words ask of the input.
fn answer<I: ByteSource>(
    alloc: Global,
    words: &[String],
    input: &mut I,
) -> Result<Buffer<u8>, Refusal>
    ensures answered { IfOk result (λ text. IfSome (I.left input.old) (Answered (outcome words.now) (λ shown. text ≡ shown))) }
    ensures asked { OnOk result (IsSome (asked_for words.now)) }
    ensures end { OnOk result (IsAtEnd (I.left input.new)) }
    ensures words { word_in words.now ≡ None → result ≡ Err NotBuilt }
    ensures refused { IfErr result (λ refusal. RefusesScan words.now (I.left input.old) refusal) }
    ensures read { IsErrOf result ReadFailed → Faulted (I.faults input.old) (I.faults input.new) }
    ensures unwritten { IfErr result (λ refusal. refusal ≢ WriteFailed) }
{
    let request = match request_in(alloc, words) {
        Ok(request) => request,
        Err(refusal) => return Err(refusal),
    };
    answer_to(alloc, &request, input)
}

// Reads the table, and hands over the text of the chosen rows at once.
fn scan<I: ByteSource, O: ByteSink>(
    alloc: Global,
    words: &[String],
    input: &mut I,
    output: &mut O,
) -> Result<(), Refusal>
    ensures done { OnOk result (IfSome (I.left input.old) (Answered (outcome words.now) (Appends (O.taken output.old) (O.taken output.new)))) }
    ensures asked { OnOk result (IsSome (asked_for words.now)) }
    ensures end { OnOk result (IsAtEnd (I.left input.new)) }
    ensures words { word_in words.now ≡ None → result ≡ Err NotBuilt }
    ensures refused { IfErr result (λ refusal. RefusesScan words.now (I.left input.old) refusal) }
    ensures read { IsErrOf result ReadFailed → Faulted (I.faults input.old) (I.faults input.new) }
    ensures write { IsErrOf result WriteFailed → Faulted (O.faults output.old) (O.faults output.new) }
    ensures front { IsErrOf result WriteFailed → IfSome (I.left input.old) (Answered (outcome words.now) (AppendsFront (O.taken output.old) (O.taken output.new))) }
    ensures kept { IfErr result (λ refusal. refusal ≢ WriteFailed → O.taken output.new ≡ O.taken output.old) }
{
    let text = match answer(alloc, words, input) {
        Ok(text) => text,
        Err(refusal) => return Err(refusal),
    };
    match write_all(output, text.as_slice()) {
        Ok(()) => Ok(()),
        Err(_) => Err(Refusal::WriteFailed),
    }
}

// Writes the line of a refusal. A failure of the stream changes nothing else.
fn report<E: ByteSink>(errors: &mut E, refusal: Refusal)
    ensures { Says (E.taken errors.old) (E.taken errors.new) (E.faults errors.old) (E.faults errors.new) (line_of (status_of refusal)) }
{
    match write_all(errors, refusal.line()) {
        Ok(()) => {}
        Err(_) => {}
    }
}

/// All that the program does. The words leave out its own name.
///
/// The words are `scan REQUEST` and the input is the text of a table, as `request_of` and `table_of` read them; the rows that the
/// request chooses are written to the output, as `rows_text` writes them. The answer is the status that the program ends with, and
/// each but 0 has a line on `errors`: 8 `vxscan: not built` where the words, the request or the table are of another form, or the
/// input passes 67,108,864 bytes; 4 `vxscan: request refused` where the request names another column; 6 `vxscan: read failed` and
/// 7 `vxscan: write failed` where a stream failed, 7 with a front of the text written; 1 `vxscan: out of memory`.
pub fn query<I: ByteSource, O: ByteSink, E: ByteSink>(
    alloc: Global,
    words: &[String],
    input: &mut I,
    output: &mut O,
    errors: &mut E,
) -> u8
    ensures words { word_in words.now ≡ None → result ≡ 8 }
    ensures request { asked_for words.now ≡ None → IsOneOf (8 ∷ 1 ∷ []) result }
    ensures outcome { IfSome (I.left input.old) (λ bytes. Ends (outcome words.now bytes) result) }
    ensures statuses { IsOneOf (0 ∷ 1 ∷ 4 ∷ 6 ∷ 7 ∷ 8 ∷ []) result }
    ensures done { result ≡ 0 → IfSome (I.left input.old) (Answered (outcome words.now) (Appends (O.taken output.old) (O.taken output.new))) }
    ensures end { result ≡ 0 → IsAtEnd (I.left input.new) }
    ensures read_failed { result ≡ 6 → Faulted (I.faults input.old) (I.faults input.new) }
    ensures write_failed { result ≡ 7 → Faulted (O.faults output.old) (O.faults output.new) }
    ensures front { result ≡ 7 → IfSome (I.left input.old) (Answered (outcome words.now) (AppendsFront (O.taken output.old) (O.taken output.new))) }
    ensures kept { result ≢ 0 → result ≢ 7 → O.taken output.new ≡ O.taken output.old }
    ensures line { Says (E.taken errors.old) (E.taken errors.new) (E.faults errors.old) (E.faults errors.new) (line_of result) }
{
    match scan(alloc, words, input, output) {
        Ok(()) => 0,
        Err(refusal) => {
            report(errors, refusal);
            refusal.status()
        }
    }
}

/// What the program does where the system does not hand its words over as text: it ends with 8, or with 1 where memory ran out.
pub fn refuse_words<E: ByteSink>(errors: &mut E, out_of_memory: bool) -> u8
    ensures status { result ≡ (if out_of_memory then 1 else 8) }
    ensures line { Says (E.taken errors.old) (E.taken errors.new) (E.faults errors.old) (E.faults errors.new) (line_of result) }
{
    let refusal = if out_of_memory {
        Refusal::OutOfMemory
    } else {
        Refusal::NotBuilt
    };
    report(errors, refusal);
    refusal.status()
}
