//! Bytes of UTF-8 as UTF-16 code units.

ghost use Rattle.std.specs.Prelude.{◌≡◌, ℕ, ◌+◌, ◌-◌, ◌*◌, ◌/◌, ◌%◌, ◌≤◌, ◌<◌, max, true, List, [], ◌∷◌, ◌++◌};
ghost use Rattle.std.specs.Prelude.{length, get_or, take, flat_map, option_to_list, vec_len, vec_capacity};
ghost use Rattle.std.specs.List.{list_all};
ghost use Rattle.con_units.specs.Split.{split_after, next};
ghost use Rattle.con_units.specs.Utf8.{utf8};
ghost use Rattle.con_term.specs.Play.{units_of};
ghost use Rattle.con_term.specs.Ascii.{is_ascii_byte};

use con_term::front::{front_character, surrogates};
use con_units::Utf8;
use std::mem;

// How many bytes are looked at together.
const CHUNK: usize = 64;

// Puts the one or two units of a character last.
#[tactic(auto, unfolding(con_term::specs::Play::units_of))]
fn push_character(units: &mut Vec<u16>, code: u32)
    requires small { code < 0x140000 }
    requires room { vec_len units.old + 2 ≤ vec_capacity units.old }
    ensures units { units.new.items ≡ units.old.items ++ units_of code }
    ensures few { vec_len units.new ≤ vec_len units.old + 2 }
    ensures capacity { vec_capacity units.new ≡ vec_capacity units.old }
{
    if code < 0x10000 {
        units.push_reserved(code as u16);
    } else {
        let (high, low) = surrogates(code);
        units.push_reserved(high);
        units.push_reserved(low);
    }
}

fn push_if(units: &mut Vec<u16>, character: Option<char>)
    requires room { vec_len units.old + 2 ≤ vec_capacity units.old }
    ensures units { units.new.items ≡ units.old.items ++ flat_map units_of (option_to_list character) }
    ensures few { vec_len units.new ≤ vec_len units.old + 2 }
    ensures capacity { vec_capacity units.new ≡ vec_capacity units.old }
{
    if let Some(character) = character {
        push_character(units, character as u32);
    }
}

fn decode_byte(decoder: &mut Utf8, byte: u8, units: &mut Vec<u16>)
    requires room { vec_len units.old + 4 ≤ vec_capacity units.old }
    ensures units { units.new.items ≡ units.old.items ++ flat_map units_of (next utf8 decoder.old byte).items }
    ensures held { decoder.new ≡ (next utf8 decoder.old byte).tail }
    ensures few { vec_len units.new ≤ vec_len units.old + 4 }
    ensures capacity { vec_capacity units.new ≡ vec_capacity units.old }
{
    let decoded = decoder.feed(byte);
    push_if(units, decoded.first);
    push_if(units, decoded.second);
}

fn greater(a: u8, b: u8) -> u8
    ensures { result ≡ max a b }
{
    a.max(b)
}

// Whether the bytes are ASCII. The greatest of them is found many bytes at a time.
fn is_ascii(bytes: &[u8]) -> bool
    ensures { result ≡ true → list_all is_ascii_byte bytes.now ≡ true }
{
    let mut most = 0;
    for byte in bytes {
        most = greater(most, *byte);
    }
    most < 0x80
}

// Puts bytes last, as units.
pub(crate) fn push_bytes(units: &mut Vec<u16>, bytes: &[u8])
    requires room { vec_len units.old + length bytes.now ≤ vec_capacity units.old }
    ensures units { units.new.items ≡ units.old.items ++ bytes.now }
    ensures few { vec_len units.new ≡ vec_len units.old + length bytes.now }
    ensures capacity { vec_capacity units.new ≡ vec_capacity units.old }
{
    for byte in bytes {
        units.push_reserved(*byte as u16);
    }
}

// Puts the run of ASCII at the front last, at most so many bytes of it, and tells how many.
fn push_run(units: &mut Vec<u16>, bytes: &[u8], most: usize) -> usize
    requires first { get_or bytes.now 0 0 < 0x80 }
    requires some { 0 < most }
    requires inside { most ≤ length bytes.now }
    requires room { vec_len units.old + most ≤ vec_capacity units.old }
    ensures more { 0 < result }
    ensures inside { result ≤ most }
    ensures ascii { list_all is_ascii_byte (take result bytes.now) ≡ true }
    ensures units { units.new.items ≡ units.old.items ++ take result bytes.now }
    ensures few { vec_len units.new ≡ vec_len units.old + result }
    ensures capacity { vec_capacity units.new ≡ vec_capacity units.old }
{
    units.push_reserved(bytes[0] as u16);
    let mut count = 1;
    while count < most {
        let byte = bytes[count];
        if byte >= 0x80 {
            return count;
        }
        units.push_reserved(byte as u16);
        count += 1;
    }
    count
}

// Decodes what stands at the front, and tells how many bytes it is: a run of at most so many bytes of ASCII, or a whole character, or else
// one byte.
fn decode_front(decoder: &mut Utf8, bytes: &[u8], most: usize, units: &mut Vec<u16>) -> usize
    requires some { 0 < most }
    requires inside { most ≤ length bytes.now }
    requires room { vec_len units.old + 4 * length bytes.now ≤ vec_capacity units.old }
    ensures more { 0 < result }
    ensures inside { result ≤ length bytes.now }
    ensures units { units.new.items ≡ units.old.items ++ flat_map units_of (split_after utf8 decoder.old (take result bytes.now)).items }
    ensures held { decoder.new ≡ (split_after utf8 decoder.old (take result bytes.now)).tail }
    ensures few { vec_len units.new ≤ vec_len units.old + 4 * result }
    ensures capacity { vec_capacity units.new ≡ vec_capacity units.old }
{
    if decoder.held() == 0 {
        if bytes[0] < 0x80 {
            return push_run(units, bytes, most);
        }
        if let Some(front) = front_character(bytes) {
            push_character(units, front.code);
            return front.count;
        }
    }
    decode_byte(decoder, bytes[0], units);
    1
}

// Decodes so many bytes at the front and what is left of the last character, and tells how many.
fn decode_each(decoder: &mut Utf8, bytes: &[u8], most: usize, units: &mut Vec<u16>) -> usize
    requires inside { most ≤ length bytes.now }
    requires room { vec_len units.old + 4 * length bytes.now ≤ vec_capacity units.old }
    ensures more { most ≤ result }
    ensures inside { result ≤ length bytes.now }
    ensures units { units.new.items ≡ units.old.items ++ flat_map units_of (split_after utf8 decoder.old (take result bytes.now)).items }
    ensures held { decoder.new ≡ (split_after utf8 decoder.old (take result bytes.now)).tail }
    ensures few { vec_len units.new ≤ vec_len units.old + 4 * result }
    ensures capacity { vec_capacity units.new ≡ vec_capacity units.old }
{
    let mut at = 0;
    while at < most {
        at += decode_front(decoder, &bytes[at..], most - at, units);
    }
    at
}

// Decodes some bytes at the front, and tells how many.
fn decode_chunk(decoder: &mut Utf8, bytes: &[u8], units: &mut Vec<u16>) -> usize
    requires some { 0 < length bytes.now }
    requires room { vec_len units.old + 4 * length bytes.now ≤ vec_capacity units.old }
    ensures more { 0 < result }
    ensures inside { result ≤ length bytes.now }
    ensures units { units.new.items ≡ units.old.items ++ flat_map units_of (split_after utf8 decoder.old (take result bytes.now)).items }
    ensures held { decoder.new ≡ (split_after utf8 decoder.old (take result bytes.now)).tail }
    ensures few { vec_len units.new ≤ vec_len units.old + 4 * result }
    ensures capacity { vec_capacity units.new ≡ vec_capacity units.old }
{
    let len = bytes.len().min(CHUNK);
    let chunk = &bytes[..len];
    if decoder.held() == 0 && is_ascii(chunk) {
        push_bytes(units, chunk);
        return len;
    }
    decode_each(decoder, bytes, len, units)
}

/// The units that bytes complete, in a list with room for four units a byte.
pub fn decode(decoder: &mut Utf8, bytes: &[u8], units: &mut Vec<u16>)
    requires room { 4 * length bytes.now ≤ vec_capacity units.old }
    ensures units { units.new.items ≡ flat_map units_of (split_after utf8 decoder.old bytes.now).items }
    ensures held { decoder.new ≡ (split_after utf8 decoder.old bytes.now).tail }
    ensures few { vec_len units.new ≤ 4 * length bytes.now }
    ensures capacity { vec_capacity units.new ≡ vec_capacity units.old }
{
    units.clear();
    let alloc = *units.allocator();
    // The list is held by value, so that its length stays in a register.
    let mut list = mem::replace(units, Vec::new(alloc));
    let mut at = 0;
    while at < bytes.len() {
        at += decode_chunk(decoder, &bytes[at..], &mut list);
    }
    *units = list;
}
