//! What no clause tells: that the calls which take memory succeed, and what the real adapters do. And what each adapter
//! tells through its trait alone: a sink that tells no bytes, or a count that stands, is refused here.
ghost use Rattle.std.specs.Prelude.{◌≡◌, ◌<◌, ◌++◌, ◌^◌, ℕ, [], length, take, IfOk, OnOk, OnErr, Ok, Err};
ghost use Rattle.std.specs.Io.KnownBytes.{Appends, ReadConsumes};
ghost use Rattle.nrm_edge.specs.Causes.{HasCause, one_more};
ghost use Rattle.nrm_edge.specs.Fetch.{AnswersFetch, HasFileCause, IsFetched};
ghost use Rattle.nrm_edge.specs.Memory.{stored_under};
ghost use Rattle.nrm_edge.specs.declared.files.FileFault.TheVariants as fault;

use nrm_edge::{
    DirFiles, Failed, Fetched, FileFault, Files, GatheringSink, MemFiles, MemSink, MemSource, Sink,
    Source, StdSink, StdSource, put_all,
};
use std::alloc::{AllocError, Global};
use std::io::{Read, Write};
use std::test::Fail;
use std::{env, fs};

// Puts a whole piece into a sink in memory.
fn put_in_memory(sink: &mut MemSink, piece: &[u8]) -> Result<(), Failed>
    ensures whole { OnOk result (sink.new.held ≡ sink.old.held ++ piece.now) }
    ensures cut { OnErr result ((count : ℕ) × (count < length piece.now) × (sink.new.held ≡ sink.old.held ++ take count piece.now)) }
    ensures done { OnOk result (sink.new.faults ≡ sink.old.faults) }
    ensures rose { OnErr result (sink.new.faults ≡ one_more sink.old.faults) }
{
    put_all(sink, piece)
}

// Puts a whole piece into a real sink.
fn put_into_real<W: Write>(sink: &mut StdSink<W>, piece: &[u8]) -> Result<(), Failed>
    ensures whole { OnOk result (Appends (W.contents sink.old.stream) (W.contents sink.new.stream) piece.now) }
    ensures done { OnOk result (sink.new.faults ≡ sink.old.faults) }
    ensures rose { OnErr result (sink.new.faults ≡ one_more sink.old.faults) }
{
    put_all(sink, piece)
}

// Puts a whole piece into any sink, and has it sent on.
fn send<K: Sink>(sink: &mut K, piece: &[u8]) -> Result<(), Failed>
    ensures whole { OnOk result (Appends (K.held sink.old) (K.held sink.new) piece.now) }
    ensures sent { OnOk result (K.unsent sink.new ≡ []) }
    ensures cause { HasCause (K.faults sink.old) (K.faults sink.new) result }
{
    put_all(sink, piece)?;
    sink.flush()
}

// Sends a whole piece through a sink that gathers, over one in memory.
fn send_through(sink: &mut GatheringSink<MemSink>, piece: &[u8]) -> Result<(), Failed>
    ensures whole { OnOk result (sink.new.sink.held ≡ (sink.old.sink.held ++ sink.old.gathered) ++ piece.now) }
    ensures sent { OnOk result (sink.new.gathered ≡ []) }
    ensures done { OnOk result (sink.new.sink.faults ≡ sink.old.sink.faults) }
    ensures rose { OnErr result (sink.new.sink.faults ≡ one_more sink.old.sink.faults) }
{
    send(sink, piece)
}

// Takes from any source.
fn take_from<S: Source>(source: &mut S, into: &mut [u8]) -> Result<usize, Failed>
    requires { 0 < length into.old }
    ensures bytes { ReadConsumes (S.coming source.old) (S.coming source.new) result into.new }
    ensures cause { HasCause (S.faults source.old) (S.faults source.new) result }
{
    source.take(into)
}

// Takes from a source in memory.
fn take_from_memory(source: &mut MemSource, into: &mut [u8]) -> Result<usize, Failed>
    requires { 0 < length into.old }
    ensures taken { IfOk result (λ count. source.old.coming ≡ take count into.new ++ source.new.coming) }
    ensures end { IfOk result (λ count. count ≡ 0 → source.new.coming ≡ []) }
    ensures stays { OnErr result (source.new.coming ≡ source.old.coming) }
    ensures done { OnOk result (source.new.faults ≡ source.old.faults) }
    ensures rose { OnErr result (source.new.faults ≡ one_more source.old.faults) }
{
    take_from(source, into)
}

// Takes from a real source.
fn take_from_real<R: Read>(source: &mut StdSource<R>, into: &mut [u8]) -> Result<usize, Failed>
    requires { 0 < length into.old }
    ensures bytes { ReadConsumes (R.remaining source.old.stream) (R.remaining source.new.stream) result into.new }
    ensures done { OnOk result (source.new.faults ≡ source.old.faults) }
    ensures rose { OnErr result (source.new.faults ≡ one_more source.old.faults) }
{
    take_from(source, into)
}

// Fetches from any files.
fn fetch_from<F: Files>(
    files: &mut F,
    alloc: Global,
    name: &str,
    room: usize,
) -> Result<Fetched, FileFault>
    requires { room < 2 ^ 32 }
    ensures answer { AnswersFetch (F.contents files.old) name.now room result }
    ensures stays { F.contents files.new ≡ F.contents files.old }
    ensures cause { HasFileCause (F.faults files.old) (F.faults files.new) result }
{
    files.fetch(alloc, name, room)
}

// Fetches from files in memory.
fn fetch_from_memory(
    files: &mut MemFiles,
    alloc: Global,
    name: &str,
    room: usize,
) -> Result<Fetched, FileFault>
    requires { room < 2 ^ 32 }
    ensures answer { IfOk result (IsFetched (stored_under files.old.files name.now) room) }
    ensures stays { stored_under files.new.files name.now ≡ stored_under files.old.files name.now }
    ensures done { OnOk result (files.new.faults ≡ files.old.faults) }
    ensures rose { result ≡ Err fault.Failed → files.new.faults ≡ one_more files.old.faults }
{
    fetch_from(files, alloc, name, room)
}

// Fetches from real files.
fn fetch_from_real<R: std::rt::Files>(
    files: &mut DirFiles<'_, R>,
    alloc: Global,
    name: &str,
    room: usize,
) -> Result<Fetched, FileFault>
    requires { room < 2 ^ 32 }
    ensures done { OnOk result (files.new ≡ files.old) }
    ensures rose { result ≡ Err fault.Failed → files.new ≡ one_more files.old }
{
    fetch_from(files, alloc, name, room)
}

#[test]
fn a_sink_in_memory_takes_pieces(rt: HostRuntime) -> Result<(), Fail> {
    let cuts = Vec::from_array(rt.alloc(), [2, 1])?;
    let failing = Vec::from_array(rt.alloc(), [3])?;
    let mut sink = MemSink::new(rt.alloc(), 8, cuts, failing)?;
    assert_eq!(rt; sink.put(b"abc").ok(), Some(2));
    assert_eq!(rt; sink.put(b"cde").ok(), Some(1));
    assert!(rt; sink.put(b"de").is_err(), "the third put fails");
    assert!(rt; put_in_memory(&mut sink, b"defgh").is_ok());
    assert!(rt; put_in_memory(&mut sink, b"i").is_err(), "no room is left");
    assert!(rt; sink.flush().is_ok(), "nothing is kept back");
    assert_eq!(rt; sink.held(), b"abcdefgh".as_slice());
    Ok(())
}

// Four bytes are gathered at most: a piece that has room goes out with what stood there, a longer one in parts, and what a failed put
// of the other sink left is sent on by the next one.
#[test]
fn a_gathering_sink_sends_on_in_few_pieces(rt: HostRuntime) -> Result<(), Fail> {
    let alloc = rt.alloc();
    let failing = Vec::from_array(alloc, [3])?;
    let inner = MemSink::new(alloc, 16, vec![in alloc; 4, 2]?, failing)?;
    let mut sink = GatheringSink::new(alloc, inner, 4)?;
    assert_eq!(rt; sink.put(b"ab").ok(), Some(2));
    assert_eq!(rt; sink.put(b"cde").ok(), Some(3), "ab goes out before");
    assert!(rt;
        put_all(&mut sink, b"fgh").is_err(),
        "two of cde go out, and the third put fails"
    );
    assert!(rt; send_through(&mut sink, b"ijklm").is_ok());
    assert_eq!(rt; sink.sink().held(), b"abcdeijklm".as_slice());
    Ok(())
}

#[test]
fn a_source_in_memory_gives_pieces(rt: HostRuntime) -> Result<(), Fail> {
    let bytes = b"abcde".to_vec(rt.alloc())?;
    let cuts = Vec::from_array(rt.alloc(), [2, 9, 0])?;
    let failing = Vec::from_array(rt.alloc(), [2])?;
    let mut source = MemSource::new(bytes, cuts, failing);
    let mut into = [0; 4];
    assert_eq!(rt; take_from_memory(&mut source, &mut into).ok(), Some(2));
    assert!(rt; source.take(&mut into).is_err(), "the second take fails");
    assert_eq!(rt;
        source.take(&mut into).ok(),
        Some(1),
        "a cut of 0 gives one byte"
    );
    assert_eq!(rt; source.take(&mut into).ok(), Some(2));
    assert_eq!(rt; source.take(&mut into).ok(), Some(0));
    Ok(())
}

fn two_files(alloc: Global) -> Result<MemFiles, AllocError> {
    let mut list = Vec::new(alloc);
    list.push((b"A".to_vec(alloc)?, b"abc".to_vec(alloc)?))?;
    list.push((b"A".to_vec(alloc)?, b"hidden".to_vec(alloc)?))?;
    Ok(MemFiles::new(list, Vec::from_array(alloc, [4])?))
}

#[test]
fn files_in_memory_are_fetched(rt: HostRuntime) -> Result<(), Fail> {
    let mut files = two_files(rt.alloc())?;
    match fetch_from_memory(&mut files, rt.alloc(), "A", 3) {
        Ok(Fetched::Whole(bytes)) => assert_eq!(rt; bytes.as_slice(), b"abc".as_slice()),
        _ => return Err(Fail::from("not whole")),
    }
    assert!(rt; matches!(files.fetch(rt.alloc(), "A", 2), Ok(Fetched::Longer)));
    assert!(rt; matches!(files.fetch(rt.alloc(), "B", 3), Ok(Fetched::Absent)));
    assert!(rt; matches!(files.fetch(rt.alloc(), "A", 3), Err(FileFault::Failed)));
    Ok(())
}

#[test]
fn readers_and_writers_of_std(rt: HostRuntime) -> Result<(), Fail> {
    let mut source = StdSource::new(b"abc".as_slice());
    let mut into = [0; 2];
    assert_eq!(rt; take_from_real(&mut source, &mut into).ok(), Some(2));
    assert_eq!(rt; source.take(&mut into).ok(), Some(1));
    assert_eq!(rt; source.take(&mut into).ok(), Some(0));
    let mut sink = StdSink::new(Vec::new(rt.alloc()));
    assert!(rt; put_into_real(&mut sink, b"abc").is_ok());
    assert!(rt; sink.flush().is_ok());
    Ok(())
}

#[test]
fn real_files_are_fetched(rt: HostRuntime) -> Result<(), Fail> {
    let folder = env::temp_dir(&rt)?;
    let folder = folder.as_path().to_str().ok_or("a folder that is text")?;
    let name = format!(in rt.alloc(); "{folder}/nrm_edge_real_files")?;
    fs::write(&rt, name.as_str(), "abc")?;
    let mut files = DirFiles::new(&rt);
    match fetch_from_real(&mut files, rt.alloc(), name.as_str(), 3) {
        Ok(Fetched::Whole(bytes)) => assert_eq!(rt; bytes.as_slice(), b"abc".as_slice()),
        _ => return Err(Fail::from("not whole")),
    }
    assert!(rt;
        matches!(
            files.fetch(rt.alloc(), name.as_str(), 2),
            Ok(Fetched::Longer)
        )
    );
    assert!(rt;
        matches!(files.fetch(rt.alloc(), folder, 3), Err(FileFault::Failed)),
        "a folder can't be read"
    );
    fs::remove_file(&rt, name.as_str())?;
    assert!(rt;
        matches!(
            files.fetch(rt.alloc(), name.as_str(), 3),
            Ok(Fetched::Absent)
        )
    );
    Ok(())
}
