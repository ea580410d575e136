// Whole reads and whole writes.
ghost use Rattle.std.specs.Prelude.{◌≡◌, ◌<◌, ◌≤◌, ℕ, List, length, take, [], IfOk, IfErr, OnErr, IsErrOf};
ghost use Rattle.msp_io.specs.Faults.{Rose};
ghost use Rattle.msp_io.specs.Whole.{IsStop, Puts};
ghost use Rattle.msp_io.specs.declared.whole.TheConstants.{GREATEST_LIMIT};

use crate::{Failed, Sink, Source};
use std::alloc::{AllocError, Global};

/// The greatest limit of a whole read, in bytes.
pub const GREATEST_LIMIT: u64 = 4_294_967_295;

const CHUNK: usize = 4096;

/// Why a whole read stopped before the end of the input.
#[derive(Clone, Copy, PartialEq, Eq)]
pub enum Taken {
    /// The source failed.
    ReadFault,
    /// The input is longer than the limit.
    TooLong,
    /// There was no memory left.
    Memory,
}

impl From<AllocError> for Taken {
    ghost use Rattle.std.specs.Prelude.{◌≡◌};
    ghost use Rattle.msp_io.specs.declared.whole.Taken.TheVariants.{Memory};

    ghost from_gives = { λ _ why. why ≡ Memory };

    fn from(_refusal: AllocError) -> Taken {
        Taken::Memory
    }
}

/// The sink failed.
#[derive(Clone, Copy, PartialEq, Eq)]
pub struct WriteFault;

// One read into a slice with room, and no other. A count of 0 is the end of the input.
fn read_once<S: Source>(source: &mut S, piece: &mut [u8]) -> Result<usize, Failed>
    requires { 0 < length piece.old }
    ensures count { IfOk result (λ n. n ≤ length piece.old) }
    ensures given { IfOk result (λ n. 0 < n → S.gave source.old source.new (take n piece.new)) }
    ensures end { IfOk result (λ n. n ≡ 0 → S.finished source.old source.new []) }
    ensures broken { OnErr result (S.broke source.old source.new []) }
    ensures fault { OnErr result (Rose (S.seen source.old).faults (S.seen source.new).faults) }
    ensures faults { (S.seen source.old).faults ≤ (S.seen source.new).faults }
{
    source.read(piece)
}

/// Takes all bytes of `source`, to its end.
///
/// # Errors
///
/// `ReadFault` comes only where the source failed in this call. `TooLong` comes exactly where one byte more than
/// `limit` was taken, and then nothing more is read. `Memory` comes where memory runs out. In each case what was
/// taken is lost.
pub fn read_all<S: Source>(alloc: Global, source: &mut S, limit: u64) -> Result<Vec<u8>, Taken>
    requires { limit ≤ GREATEST_LIMIT }

    // All that the source gave in this call, to its end.
    ensures all { IfOk result (λ all. S.finished source.old source.new all.items) }
    ensures within { IfOk result (λ all. length all.items ≤ limit) }

    // What was taken before it stopped. After a read that failed, as after one that met the end, nothing more is read.
    ensures stopped { IfErr result (λ why.
        (taken : List ℕ) × IsStop (S.gave source.old source.new) (S.broke source.old source.new) why limit taken) }
    ensures fault { IsErrOf result Taken.ReadFault → Rose (S.seen source.old).faults (S.seen source.new).faults }
    ensures faults { (S.seen source.old).faults ≤ (S.seen source.new).faults }
{
    let mut chunk = [0; CHUNK];
    let mut bytes = Vec::new(alloc);
    'pieces: loop {
        let free = limit as usize - bytes.len();
        let most = chunk.len().min(free + 1);
        match read_once(source, &mut chunk[..most]) {
            Err(Failed) => return Err(Taken::ReadFault),
            Ok(0) => return Ok(bytes),
            Ok(count) => {
                if count > free {
                    return Err(Taken::TooLong);
                }
                bytes.extend_from_slice(&chunk[..count])?;
            }
        }
    }
}

// One write of a slice that is not empty, and no other.
fn write_once<K: Sink>(sink: &mut K, piece: &[u8]) -> Result<usize, Failed>
    requires { 0 < length piece.now }
    ensures count { IfOk result (λ n. (0 < n) × (n ≤ length piece.now)) }
    ensures taken { IfOk result (λ n. K.took sink.old sink.new (take n piece.now)) }
    ensures broken { OnErr result (K.broke sink.old sink.new []) }
    ensures fault { OnErr result (Rose (K.seen sink.old).faults (K.seen sink.new).faults) }
    ensures faults { (K.seen sink.old).faults ≤ (K.seen sink.new).faults }
{
    sink.write(piece)
}

/// Appends all of `bytes` to `sink`, without a call where there are none.
///
/// # Errors
///
/// `WriteFault` comes only where the sink failed in this call, and nothing more is written then. The front of `bytes` may be held.
pub fn write_all<K: Sink>(sink: &mut K, bytes: &[u8]) -> Result<(), WriteFault>
    ensures put { Puts (K.took sink.old sink.new) (K.broke sink.old sink.new) bytes.now result }
    ensures fault { OnErr result (Rose (K.seen sink.old).faults (K.seen sink.new).faults) }
    ensures faults { (K.seen sink.old).faults ≤ (K.seen sink.new).faults }
{
    let mut done = 0;
    'pieces: while done < bytes.len() {
        match write_once(sink, &bytes[done..]) {
            Ok(count) => done += count,
            Err(Failed) => return Err(WriteFault),
        }
    }
    Ok(())
}
