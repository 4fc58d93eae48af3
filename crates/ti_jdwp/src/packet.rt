//! The heads of packets.

/// What each side sends first.
pub const HANDSHAKE: [u8; 14] = *b"JDWP-Handshake";

/// Bytes of a head.
pub const HEAD_LEN: usize = 11;

/// Bytes of a packet that a debugger sends, with its head, at most.
pub const MAX_PACKET: u32 = 65_536;

/// What an input begins with. Lengths are those of whole packets, with their heads, in bytes: 11 to 65,536.
#[derive(Clone, Copy, Debug, PartialEq, Eq)]
pub enum Head {
    /// The input may still become a head.
    NeedsMore,
    /// The length is below that of a head. The connection closes.
    TooShort,
    /// The length is above [`MAX_PACKET`]. The connection closes.
    TooLong,
    /// A request. Its reply has the same id.
    Request {
        id: u32,
        set: u8,
        command: u8,
        length: usize,
    },
    /// A reply, which is ignored.
    Reply {
        length: usize,
    },
}

/// Reads the head that the input begins with. The length is judged as soon as its four bytes are there.
pub fn read_head(input: &[u8]) -> Head
    ensures found { BeginsWith input.now result }
    // The input begins with nothing else.
    ensures only { (h : Head) → BeginsWith input.now h → result ≡ h }
{
    head_at(input)
}

fn head_at(input: &[u8]) -> Head
    ensures { BeginsWith input.now result }
{
    if input.len() < 4 {
        return Head::NeedsMore;
    }
    let length = u32::from_be_bytes([input[0], input[1], input[2], input[3]]);
    if length < HEAD_LEN as u32 {
        return Head::TooShort;
    }
    if length > MAX_PACKET {
        return Head::TooLong;
    }
    if input.len() < HEAD_LEN {
        return Head::NeedsMore;
    }
    if input[8] >= 0x80 {
        return Head::Reply {
            length: length as usize,
        };
    }
    Head::Request {
        id: u32::from_be_bytes([input[4], input[5], input[6], input[7]]),
        set: input[9],
        command: input[10],
        length: length as usize,
    }
}

ghost use Rattle.std.specs.Prelude.{◌≡◌};
ghost use Rattle.ti_jdwp.specs.Packets.{BeginsWith};
ghost use Rattle.ti_jdwp.specs.declared.packet.Head.{Head};
