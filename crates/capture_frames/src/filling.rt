//! A number of bytes of a duct, read into a buffer or past it.
ghost use Rattle.std.specs.Prelude.{◌≤◌, ◌<◌, ◌^◌, List, length};
ghost use Rattle.scl_outside.specs.Events.{Event};
ghost use Rattle.capture_frames.specs.Reading.{Fills, Skips, Takes, Fetches};

use scl_outside::{Duct, ReadOut};

/// How a wish for bytes ended.
#[derive(Clone, Copy, Debug, PartialEq, Eq)]
pub enum Filled {
    All,
    Short(usize),
    Failed,
}

/// The result of asking for a number of bytes.
#[derive(Clone, Copy, Debug, PartialEq, Eq)]
pub enum Fetched {
    All,
    Short(usize),
    Past,
    Failed,
}

/// Reads until the buffer is full or the input is over.
fn fill<D: Duct>(duct: &mut D, buf: &mut [u8]) -> Filled
    ensures { (es : List Event) × Fills (D.meaning duct.old) (D.meaning duct.new) result buf.new es }
{
    let mut at = 0;
    while at < buf.len() {
        match duct.read(&mut buf[at..]) {
            ReadOut::Got(count) => at += count,
            ReadOut::End => return Filled::Short(at),
            ReadOut::Failed => return Filled::Failed,
        }
    }
    Filled::All
}

/// Reads n bytes and drops them.
fn skip<D: Duct>(duct: &mut D, len: usize, buf: &mut [u8]) -> Filled
    requires { 0 < length buf.old }
    ensures { (es : List Event) × Skips (D.meaning duct.old) (D.meaning duct.new) result len es }
{
    let mut done = 0;
    while done < len {
        let part = (len - done).min(buf.len());
        match fill(duct, &mut buf[..part]) {
            Filled::All => done += part,
            Filled::Short(count) => return Filled::Short(done + count),
            Filled::Failed => return Filled::Failed,
        }
    }
    Filled::All
}

/// Reads n bytes, into the front of the buffer where they fit and else passed over.
fn take_bytes<D: Duct>(duct: &mut D, len: usize, buf: &mut [u8]) -> Filled
    requires { 0 < length buf.old }
    ensures { (es : List Event) × Takes (D.meaning duct.old) (D.meaning duct.new) result len buf.new es }
{
    if len <= buf.len() {
        fill(duct, &mut buf[..len])
    } else {
        skip(duct, len, buf)
    }
}

/// Reads n bytes as `take_bytes` does, but at most `left + 1` of them.
pub fn fetch<D: Duct>(duct: &mut D, len: usize, left: u64, buf: &mut [u8]) -> Fetched
    requires room { 0 < length buf.old }
    requires left { left < 2 ^ 63 }
    ensures { (es : List Event) × Fetches (D.meaning duct.old) (D.meaning duct.new) result len left buf.new es }
{
    let need = len.min(left as usize + 1);
    match take_bytes(duct, need, buf) {
        Filled::All => {
            if need as u64 > left {
                Fetched::Past
            } else {
                Fetched::All
            }
        }
        Filled::Short(count) => Fetched::Short(count),
        Filled::Failed => Fetched::Failed,
    }
}
