// Lists the two headers of an Ogg Opus stream on standard input: the identification header's fields by name, the vendor, and
// each comment. Where a page of them is refused, the listing is one line with the refusal's number and the page's.
//
// Sums that could wrap only past the end of all memory are written as wrapping ones.
#![tactic(auto)]

use feeding::{Progress, Stage};
use limits::PACKET_MAX;
use std::io::{Error, Stderr, Stdin, Stdout, Write};

mod feeding;
mod listing;

// Standard input, standard output and standard error.
#[derive(Clone, Copy)]
pub(crate) struct Streams {
    pub(crate) input: Stdin,
    output: Stdout,
    errors: Stderr,
}

fn say(streams: Streams, message: &str) {
    let mut errors = streams.errors;
    let _said = errors.write_all(message.as_bytes());
}

// Says on standard error what failed, and why.
pub(crate) fn fail(streams: Streams, what: &str, why: Error) {
    let mut errors = streams.errors;
    let _said = writeln!(errors, "tags: {what}: {why}");
}

// Writes the first n bytes.
pub(crate) fn write(streams: Streams, out: &[u8], n: usize) -> Result<(), Error> {
    let mut output = streams.output;
    output.write_all(octets::part_of(out, 0, n))
}

fn tell(streams: Streams, p: Progress, carry: &[u8], header: &[u8]) -> Result<(), Error> {
    let stage = p.stage;
    match stage {
        Stage::Feeding => say(streams, "tags: the input does not end\n"),
        Stage::Complete(size) => {
            return listing::list(
                streams,
                octets::part_of(header, 0, p.header_size),
                octets::part_of(carry, 0, size),
            );
        }
        Stage::Refused(number) => return listing::list_refused(streams, number, p.pages),
        Stage::Cut => say(streams, "tags: the input ends before the comment header\n"),
        Stage::Unread => {}
    }
    Ok(())
}

// The input buffer has room for a page, of 65,307 bytes at most, and for a read as long after it. The other two have room for
// a packet each: the comment header, and the identification header.
fn main(rt: HostRuntime) {
    let streams = Streams {
        input: rt.stdin(),
        output: rt.stdout(),
        errors: rt.stderr(),
    };
    let mut buffer = [0u8; 131072];
    let mut carry = [0u8; PACKET_MAX];
    let mut header = [0u8; PACKET_MAX];
    let p = feeding::run(streams, &mut buffer, &mut carry, &mut header);
    if let Err(why) = tell(streams, p, &carry, &header) {
        fail(streams, "cannot write", why);
    }
}
