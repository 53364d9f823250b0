//! The payload that is being filled, after room for its headers, in one buffer: a datagram is made where its payload is.
ghost use Rattle.std.specs.Prelude.{◌≡◌, ◌≤◌, ◌<◌, ◌+◌, ◌++◌, ◌^◌, ⊤, [], length, take, drop, vec_len, false, IfOk, IfSome};
ghost use Rattle.wire_model.specs.Rtp.{fixed_header};
ghost use Rattle.rtp_header.specs.Reading.{fields_of};
ghost use Rattle.scl_payload.specs.Writing.{main_header, body_header};
ghost use Rattle.packetiser.specs.Filling.{empty, put, put_eoc, filled_res, filled_header, datagram_with, body_bytes};

use rtp_header::{Rtp, write_rtp};
use scl_payload::{BodyHead, resolution_code, write_body, write_main};
use std::alloc::{AllocError, Global};
use std::marker::Model;

/// The bytes of the RTP header and of the payload header.
const HEADERS: usize = 20;

/// The greatest number of bytes of a datagram.
const LONGEST: usize = 4116;

/// A payload, and the datagram that was made last, which is there until more is put in.
#[derive(Drop)]
pub struct Payload {
    buf: Vec<u8>,
    /// How many codestream bytes are in the payload.
    len: usize,
    /// How many bytes the datagram has that was made last.
    shown: usize,
    /// The offset in the payload and the PID of the first packet that starts in it.
    mark: Option<(u16, u32)>,
    /// The lowest resolution of the packets that have a byte in the payload.
    lowest: Option<u8>,
}

impl Model for Payload {
    ghost use Rattle.std.specs.Prelude.{◌≡◌, ◌≤◌, ◌+◌, slice_range, take, vec_len};
    ghost use Rattle.packetiser.specs.Filling.{Buffer, IsMark};

    ghost Value = { Buffer };

    ghost view = { λ p. record {
      filling = record { payload = slice_range p.buf.items 20 (20 + p.len); mark = p.mark; lowest = p.lowest };
      shown = take p.shown p.buf.items;
    } };

    ghost invariant = { λ p. (p.len ≤ 4096) × (p.shown ≤ 4116) × (vec_len p.buf ≡ 4116) × IsMark p.mark };
}

impl Payload {
    /// A payload without bytes. `AllocError` where there is no memory for its buffer.
    pub fn new(alloc: Global) -> Result<Payload, AllocError>
        ensures { IfOk result (λ p. p.filling ≡ empty) }
    {
        Ok(Payload {
            buf: vec![in alloc; 0u8; LONGEST]?,
            len: 0,
            shown: 0,
            mark: None,
            lowest: None,
        })
    }

    /// How many bytes are in it.
    pub fn len(&self) -> usize
        ensures len { result ≡ length self.now.filling.payload }
        ensures few { result ≤ 4096 }
    {
        self.len
    }

    /// The datagram that was made last.
    pub fn shown(&self) -> &[u8]
        ensures bytes { result.now ≡ self.now.shown }
        ensures few { length result.now ≤ 4116 }
    {
        &self.buf[..self.shown]
    }

    /// Puts in bytes that belong to no packet.
    pub fn put_eoc(&mut self, bytes: &[u8])
        requires { length self.old.filling.payload + length bytes.now ≤ 4096 }
        ensures { self.new ≡ record { filling = put_eoc bytes.now self.old.filling; shown = [] } }
    {
        set_part(&mut self.buf, HEADERS + self.len, bytes);
        self.len += bytes.len();
        self.shown = 0;
    }

    /// Puts in bytes of a packet of resolution `r`; `begins` is its PID where they are its first.
    pub fn put(&mut self, r: u8, begins: Option<u32>, bytes: &[u8])
        requires some { 1 ≤ length bytes.now }
        requires few { length self.old.filling.payload + length bytes.now ≤ 4096 }
        requires begins { IfSome begins (λ id. id < 1048576) }
        ensures { self.new ≡ record { filling = put r begins bytes.now self.old.filling; shown = [] } }
    {
        if let (None, Some(id)) = (self.mark, begins) {
            self.mark = Some((self.len as u16, id));
        }
        self.lowest = match self.lowest {
            None => Some(r),
            Some(s) => Some(s.min(r)),
        };
        self.put_eoc(bytes);
    }

    /// Makes the Body, after which the payload is empty.
    pub fn close(&mut self, rtp: &Rtp, eseq: u8, levels: u8)
        requires kind { rtp.now.kind < 128 }
        requires lowest { IfSome self.old.filling.lowest (λ r. r ≤ levels) }
        ensures shown { self.new.shown ≡ body_bytes (fields_of rtp.now) eseq levels self.old.filling }
        ensures emptied { self.new.filling ≡ empty }
    {
        let res = match self.lowest {
            Some(r) => resolution_code(r, levels),
            None => 0,
        };
        let (ordb, (pos, pid)) = match self.mark {
            Some(mark) => (true, mark),
            None => (false, (0, 0)),
        };
        let head = BodyHead {
            res,
            eseq,
            ordb,
            pos,
            pid,
        };
        let mut header = [0u8; 8];
        write_body(&head, &mut header);
        self.show(rtp, &header);
        self.mark = None;
        self.lowest = None;
    }

    /// Makes the Main of this main header, where the payload is empty.
    pub fn main(&mut self, rtp: &Rtp, eseq: u8, ordh: u8, bytes: &[u8])
        requires kind { rtp.now.kind < 128 }
        requires ordh { ordh ≤ 7 }
        requires few { length bytes.now ≤ 4096 }
        requires none { self.old.filling ≡ empty }
        ensures shown { self.new.shown ≡ datagram_with (fields_of rtp.now) (main_header eseq ordh) bytes.now }
        ensures emptied { self.new.filling ≡ empty }
    {
        self.put_eoc(bytes);
        let mut header = [0u8; 8];
        write_main(eseq, ordh, &mut header);
        self.show(rtp, &header);
    }

    /// Writes the headers before the payload, after which it has no bytes.
    fn show(&mut self, rtp: &Rtp, header: &[u8; 8])
        requires kind { rtp.now.kind < 128 }
        ensures shown { self.new.shown ≡ datagram_with (fields_of rtp.now) header.now self.old.filling.payload }
        ensures emptied { self.new.filling ≡ record self.old.filling { payload = [] } }
    {
        let mut fixed = [0u8; 12];
        write_rtp(rtp, &mut fixed);
        set_part(&mut self.buf, 0, &fixed);
        set_part(&mut self.buf, 12, header);
        self.shown = HEADERS + self.len;
        self.len = 0;
    }
}

/// Writes bytes into a part of a buffer.
fn set_part(buf: &mut Vec<u8>, from: usize, bytes: &[u8])
    requires within { from + length bytes.now ≤ vec_len buf.old }
    ensures items { buf.new.items ≡ take from buf.old.items ++ (bytes.now ++ drop (from + length bytes.now) buf.old.items) }
    ensures len { vec_len buf.new ≡ vec_len buf.old }
{
    let to = from + bytes.len();
    buf[from..to].copy_from_slice(bytes);
}
