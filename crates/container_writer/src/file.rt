// The file, part after part.
ghost use Rattle.std.specs.Prelude.{◌≡◌, ◌*◌, ◌≤◌, length};
ghost use Rattle.std.proofs.lemmas.List.Edits.{sets};
ghost use Rattle.container_layout.specs.Container.{header_byte, container};
ghost use Rattle.container_pages.specs.Inner.{Filled};
ghost use Rattle.container_writer.specs.Inner.{Given, Streams, Data};
ghost use Rattle.container_writer.specs.Writing.{first_bytes};

use container_layout::{Planned, present_bytes};
use container_pages::{DirectoryNumbers, HeaderNumbers, LocationNumbers, put_numbers, put_zeros};
use container_parts::{write_numbers, write_stream};
use store::put;

// The header's numbers stand behind the magic.
const MAGIC_LENGTH: usize = 32;

// What the file is made of: a plan, and the bytes of the present streams.
#[derive(Clone, Copy)]
pub(crate) struct Contents<'s, 'b> {
    pub(crate) planned: Planned<'s>,
    pub(crate) bytes: &'b [u8],
    pub(crate) ghost given: { Given planned.layout.pagesize planned.sizes.now bytes.now },
}

impl<'s, 'b> Contents<'s, 'b> {
    // The whole file, in file order. The caller guarantees the room, as for each part.
    #[tactic(auto, using(crate::proofs::WriteLaws::file_parts))]
    pub(crate) fn write_file(&self, out: &mut [u8])
        requires { self.now.planned.layout.used * self.now.planned.layout.pagesize ≤ length out.old }
        ensures { out.new ≡
            sets out.old 0
            (first_bytes
            (container self.now.planned.layout.pagesize self.now.planned.sizes.now self.now.bytes.now)
            (self.now.planned.layout.used * self.now.planned.layout.pagesize)) }
    {
        let layout = self.planned.layout;
        self.write_header(out);
        self.write_data(out);
        put_zeros(
            out,
            (layout.last + 1) * layout.pagesize,
            layout.used * layout.pagesize,
        );
    }

    // Page 0: the magic, and the header's numbers.
    fn write_header(&self, out: &mut [u8])
        requires { self.now.planned.layout.pagesize ≤ length out.old }
        ensures { Filled (header_byte self.now.planned.layout.pagesize self.now.planned.sizes.now)
            out.old 0 self.now.planned.layout.pagesize out.new }
    {
        put(
            out,
            0,
            b"Microsoft C/C++ MSF 7.00\r\n\x1a\x44\x53\x00\x00\x00",
        );
        let numbers = (self.planned.layout.pagesize - MAGIC_LENGTH) / 4;
        put_numbers(&HeaderNumbers(self.planned), 0, numbers, out, MAGIC_LENGTH);
    }

    // "streams in order, directory, then exactly one location page", with the map pages before each.
    #[tactic(auto, using(crate::proofs::WriteLaws::data_parts))]
    fn write_data(&self, out: &mut [u8])
        requires { self.now.planned.layout.used * self.now.planned.layout.pagesize ≤ length out.old }
        ensures { Data self.now.planned.layout self.now.planned.sizes.now self.now.bytes.now out.old out.new }
    {
        self.write_streams(out);
        let planned = self.planned;
        let layout = planned.layout;
        write_numbers(
            &planned,
            &DirectoryNumbers(planned),
            layout.streams,
            layout.directory,
            out,
        );
        write_numbers(
            &planned,
            &LocationNumbers(planned),
            layout.streams + layout.directory,
            1,
            out,
        );
    }

    // The streams in order.
    #[tactic(auto, using(crate::proofs::FileLaws::streaming))]
    fn write_streams(&self, out: &mut [u8])
        requires { self.now.planned.layout.used * self.now.planned.layout.pagesize ≤ length out.old }
        ensures { Streams self.now.planned.layout self.now.planned.sizes.now self.now.bytes.now out.old out.new }
    {
        let mut r = 0;
        let mut at = 0;
        for &size in self.planned.sizes {
            let n = present_bytes(size);
            r = write_stream(self.planned.layout, r, &self.bytes[at..at + n], out);
            at += n;
        }
    }
}
