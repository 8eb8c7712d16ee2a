// Outside vectors: each trace of standard input is run, and its report compared with the one beside it, byte for byte.
// tools/pack-vectors says how they are packed.
#![tactic(auto)]

ghost use Rattle.std.specs.Prelude.{◌≤◌};

use std::io;
use std::io::{Print, Read};

// No more vectors are compared.
const MOST: u64 = 100000;

// A vector that is not there to its end, or is longer than its room.
#[derive(Clone, Copy, Debug, PartialEq, Eq)]
struct OutOfForm;

// Room for a vector.
#[derive(Drop)]
struct Room {
    name: [u8; 256],
    trace: [u8; 65600],
    report: [u8; report::ROOM],
}

// A trace with its name, and the report that is expected.
#[derive(Clone, Copy)]
struct Vector<'a> {
    name: &'a [u8],
    trace: &'a [u8],
    report: &'a [u8],
}

// How long a vector's name, trace and report are.
#[derive(Clone, Copy)]
struct Lengths {
    name: usize,
    trace: usize,
    report: usize,
}

// Each number least significant byte first.
impl From<[u8; 10]> for Lengths {
    fn from(head: [u8; 10]) -> Lengths {
        let [n0, n1, t0, t1, t2, t3, r0, r1, r2, r3] = head;
        Lengths {
            name: usize::from(u16::from_le_bytes([n0, n1])),
            trace: u32::from_le_bytes([t0, t1, t2, t3]) as usize,
            report: u32::from_le_bytes([r0, r1, r2, r3]) as usize,
        }
    }
}

// The next n bytes of the input.
fn filled<'a, R: Read, const N: usize>(
    reader: &mut R,
    buffer: &'a mut [u8; N],
    n: usize,
) -> Result<&'a [u8], OutOfForm> {
    let part = buffer.get_mut(..n).ok_or(OutOfForm)?;
    match reader.read_exact(part) {
        Ok(()) => Ok(part),
        Err(_) => Err(OutOfForm),
    }
}

impl Room {
    // The next vector of the input; none where the input is over.
    fn next<R: Read>(&mut self, reader: &mut R) -> Result<Option<Vector<'_>>, OutOfForm> {
        let mut head = [0u8; 10];
        if reader.read_exact(&mut head).is_err() {
            return Ok(None);
        }
        let long = Lengths::from(head);
        let name = filled(reader, &mut self.name, long.name)?;
        let trace = filled(reader, &mut self.trace, long.trace)?;
        let report = filled(reader, &mut self.report, long.report)?;
        Ok(Some(Vector {
            name,
            trace,
            report,
        }))
    }
}

impl<'a> Vector<'a> {
    // Whether the report of the trace is what is expected.
    fn is_reported(self, text: &mut [u8]) -> bool {
        let len = report::report(self.trace, text).unwrap_or(0);
        &text[..len] == self.report
    }

    fn tell(self, out: &impl Print) -> io::Result<()> {
        out.write_all(b"differs: ")?;
        out.write_all(self.name)?;
        out.write_all(b"\n")
    }
}

// How many vectors ran, and of how many the report differs.
#[derive(Clone, Copy)]
struct Tally {
    ran: u64,
    differ: u64,
}

fn compare_all<R: Read>(
    reader: &mut R,
    out: &impl Print,
    room: &mut Room,
    text: &mut [u8],
) -> (Tally, Result<(), OutOfForm>)
    ensures { (result.0.ran ≤ 100000) × (result.0.differ ≤ 100000) }
{
    let mut tally = Tally { ran: 0, differ: 0 };
    for _ in 0..MOST {
        match room.next(reader) {
            Ok(Some(vector)) => {
                tally.ran += 1;
                if !vector.is_reported(text) {
                    tally.differ += 1;
                    // where standard output cannot be written, there is nobody to tell
                    let _told = vector.tell(out);
                }
            }
            Ok(None) => break,
            Err(e) => return (tally, Err(e)),
        }
    }
    (tally, Ok(()))
}

fn main(rt: HostRuntime) -> io::Result<()> {
    let mut room = Room {
        name: [0; 256],
        trace: [0; 65600],
        report: [0; report::ROOM],
    };
    let mut text = [0u8; report::ROOM];
    let out = rt.stdout();
    let (tally, form) = compare_all(&mut rt.stdin(), &out, &mut room, &mut text);
    if form.is_err() {
        out.write_all(b"the vectors are out of form\n")?;
    }
    println!(rt; "{} vectors ran, {} differ", tally.ran, tally.differ)
}
