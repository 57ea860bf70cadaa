ghost use Rattle.std.specs.Prelude.{◌≡◌, ◌<◌, ◌≤◌, true, false};
ghost use Rattle.con_pipe.specs.PipeEnds.{is_finished, put_room, IsSameIn, IsSameOut};

use con_pipe::{PipeEnds, PipeIn, PipeOut, meet, pipe};
use con_units::Bytes;
use std::alloc::Global;
use std::sync::Wait;
use std::thread::{Threads, join, map_indices};

// A piece of so many bytes, and of none where there is no memory.
fn piece(alloc: Global, length: u8) -> Bytes {
    match Vec::from_elem(alloc, length, length as usize) {
        Ok(bytes) => Bytes(bytes),
        Err(_) => Bytes(Vec::new(alloc)),
    }
}

// Puts three pieces and the end mark.
fn put_three<R: Wait>(rt: &R, alloc: Global, mut put: PipeIn) -> PipeIn
    requires { is_finished put ≡ false }
    ensures { IsSameIn put result × (put_room result ≡ put_room put) }
{
    put.push(rt, piece(alloc, 1));
    put.push(rt, piece(alloc, 2));
    put.push(rt, piece(alloc, 3));
    put.finish(rt);
    put
}

// The length of the next piece, with 0 for none.
fn next_length<R: Wait>(rt: &R, take: &mut PipeOut) -> usize
    ensures { IsSameOut take.old take.new }
{
    match take.next(rt) {
        Some(piece) => piece.len(),
        None => 0,
    }
}

// The lengths of the next four pieces.
fn take_four<R: Wait>(rt: &R, mut take: PipeOut) -> (PipeOut, [usize; 4])
    ensures { IsSameOut take result.0 }
{
    let first = next_length(rt, &mut take);
    let second = next_length(rt, &mut take);
    let third = next_length(rt, &mut take);
    let fourth = next_length(rt, &mut take);
    (take, [first, second, third, fourth])
}

// The lengths of what came out of a pipe of one, between two threads.
fn passed<R: Threads + Wait + Sync>(rt: &R, alloc: Global) -> Option<[usize; 4]> {
    let PipeEnds { put, take } = pipe(alloc, 1).ok()?;
    let (put, taken) = join(
        rt,
        || -> PipeIn
            requires { is_finished put ≡ false }
            ensures { IsSameIn put result }
        { put_three(rt, alloc, put) },
        || -> (PipeOut, [usize; 4])
            ensures { IsSameOut take result.0 }
        { take_four(rt, take) },
    );
    let mut put = put;
    let (mut take, lengths) = taken;
    meet(&mut put, &mut take);
    Some(lengths)
}

// The lengths of what came out of a pipe that has room for all, none taken before all was put.
fn put_and_then_taken<R: Wait>(rt: &R, alloc: Global, pieces: usize) -> Option<[usize; 4]>
    requires { (0 < pieces) × (pieces ≤ 1024) }
{
    let PipeEnds { put, take } = pipe(alloc, pieces).ok()?;
    let mut put = put_three(rt, alloc, put);
    let (mut take, lengths) = take_four(rt, take);
    meet(&mut put, &mut take);
    Some(lengths)
}

// How many of these are the lengths of all pieces.
fn count_whole(all: &[Option<[usize; 4]>]) -> usize {
    let mut count = 0usize;
    for one in all {
        if *one == Some([1, 2, 3, 0]) {
            count = count.saturating_add(1);
        }
    }
    count
}

// How many of 8 pipes of one, each between two threads, pass all pieces.
fn passed_by_sixteen<R: Threads + Wait + Sync>(rt: &R, alloc: Global) -> usize {
    match map_indices(rt, alloc, 8, &|_| passed(rt, alloc)) {
        Ok(all) => count_whole(all.as_slice()),
        Err(_) => 0,
    }
}

// Pieces wait in a pipe with room for them; three pass a pipe of one between two threads; and the same in 8 pipes between 16 threads.
#[test]
fn pieces_pass_a_pipe_in_their_order(rt: HostRuntime) {
    let waited = put_and_then_taken(&rt, rt.alloc(), 4);
    let went = passed(&rt, rt.alloc());
    let pipes = passed_by_sixteen(&rt, rt.alloc());
    assert!(rt; waited == Some([1, 2, 3, 0]) && went == Some([1, 2, 3, 0]) && pipes == 8);
}
