// The static library that Rust and C link: each operation as a C function over numbers and slices. A slice crosses as a
// pointer and a length.
//
// Each function returns 0 on success, else the refusal's number in document 01's table, 20 or 21 of request 2026-01, 22
// to 24 of request 2026-05, or 25 of request 2026-07.
// It writes its other results to the numbers that it is lent: on a refusal `value` is the refusal's value, and a number
// that has nothing to say is 0. The caller guarantees that what it lends is there and does not overlap, and nothing
// else.
//
// A static library exports the functions of its own crate alone. So each function here only calls the one that it is
// named after, which makes the same promise.
#![tactic(auto)]

ghost use Rattle.std.specs.Prelude.{length};
ghost use Rattle.parse_buffer.specs.Bytes.{byte_at};
ghost use Rattle.container_crossing.specs.Flags.{limit_of, stage_of};
ghost use Rattle.container_crossing.specs.Promises.{Opens, Counts, Maps, Needs, Extracts};
ghost use Rattle.annotations_crossing.specs.Promises.{Numbers, Steps, Decodes, Runs};
ghost use Rattle.writers_crossing.specs.Promises.{Writes, Packs};

/// `value` is P, `used` is pages_used.
#[unsafe(no_mangle)]
pub extern "C" fn trovespan_open(file: &[u8], value: &mut u64, used: &mut u64) -> u32
    ensures { Opens (byte_at file.now) (length file.now) result value.new used.new }
{
    container_crossing::open(file, value, used)
}

/// `value` is the number of streams.
#[unsafe(no_mangle)]
pub extern "C" fn trovespan_stream_count(file: &[u8], value: &mut u64) -> u32
    ensures { Counts (byte_at file.now) (length file.now) result value.new }
{
    container_crossing::stream_count(file, value)
}

/// `value` is the number of slices, `total` the number of their bytes. `limit` is used only if `limited`.
#[unsafe(no_mangle)]
pub extern "C" fn trovespan_map(
    file: &[u8],
    stream: u32,
    limited: bool,
    limit: usize,
    offsets: &mut [u64],
    sizes: &mut [u64],
    value: &mut u64,
    total: &mut u64,
) -> u32
    ensures { Maps (byte_at file.now) (length file.now) stream (limit_of limited limit)
        offsets.old sizes.old result value.new total.new
        offsets.new sizes.new }
{
    container_crossing::map(file, stream, limited, limit, offsets, sizes, value, total)
}

/// `value` is the number of bytes written. `limit` is used only if `limited`.
#[unsafe(no_mangle)]
pub extern "C" fn trovespan_extract(
    file: &[u8],
    stream: u32,
    limited: bool,
    limit: usize,
    out: &mut [u8],
    value: &mut u64,
) -> u32
    ensures { Extracts (byte_at file.now) (length file.now) stream (limit_of limited limit)
        out.old result value.new out.new }
{
    container_crossing::extract(file, stream, limited, limit, out, value)
}

/// Which parts of the file mapping reads: the location list's slices, or the directory's if `directory`. `value` is
/// their number, `total` that of their bytes.
#[unsafe(no_mangle)]
pub extern "C" fn trovespan_needed_to_map(
    file: &[u8],
    directory: bool,
    offsets: &mut [u64],
    sizes: &mut [u64],
    value: &mut u64,
    total: &mut u64,
) -> u32
    ensures { Needs (byte_at file.now) (length file.now) (stage_of directory)
        offsets.old sizes.old result value.new total.new
        offsets.new sizes.new }
{
    container_crossing::needed_to_map(file, directory, offsets, sizes, value, total)
}

/// `value` is the number, `taken` how many bytes it took, `shortest` 1 if no form of it is shorter, else 0. `next` is
/// the place after it or after its refusal.
#[unsafe(no_mangle)]
pub extern "C" fn trovespan_number(
    bytes: &[u8],
    at: usize,
    value: &mut u64,
    taken: &mut u64,
    shortest: &mut u64,
    next: &mut u64,
) -> u32
    ensures { Numbers bytes.now at result value.new taken.new shortest.new
        next.new }
{
    annotations_crossing::number(bytes, at, value, taken, shortest, next)
}

/// `value` is the annotation's opcode, 1 to 13, or 0 at the end. `first` and `second` are its operands. `shortest` is 1
/// if all its numbers were shortest, else 0. `next` is the place after the annotation, the end or the refusal.
#[unsafe(no_mangle)]
pub extern "C" fn trovespan_step(
    bytes: &[u8],
    at: usize,
    value: &mut u64,
    first: &mut i64,
    second: &mut i64,
    shortest: &mut u64,
    next: &mut u64,
) -> u32
    ensures { Steps bytes.now at result value.new first.new second.new
        shortest.new next.new }
{
    annotations_crossing::step(bytes, at, value, first, second, shortest, next)
}

/// `value` is the number of annotations, `place` the place after a refusal. Refusal 10 has no place.
#[unsafe(no_mangle)]
pub extern "C" fn trovespan_decode(
    bytes: &[u8],
    store: &mut [i64],
    value: &mut u64,
    place: &mut u64,
) -> u32
    ensures { Decodes bytes.now store.old result value.new place.new store.new }
{
    annotations_crossing::decode(bytes, store, value, place)
}

/// `value` is the number of line records, `place` the place after a refusal of the decoder. 25 and 10 have no place.
#[unsafe(no_mangle)]
pub extern "C" fn trovespan_run_lines(
    bytes: &[u8],
    store: &mut [i64],
    value: &mut u64,
    place: &mut u64,
) -> u32
    ensures { Runs bytes.now store.old result value.new place.new store.new }
{
    annotations_crossing::run_lines(bytes, store, value, place)
}

/// `value` is the number of bytes written.
#[unsafe(no_mangle)]
pub extern "C" fn trovespan_write_annotations(
    records: &[i64],
    out: &mut [u8],
    value: &mut u64,
) -> u32
    ensures { Writes records.now out.old result value.new out.new }
{
    writers_crossing::write_annotations(records, out, value)
}

/// `value` is the file's length.
#[unsafe(no_mangle)]
pub extern "C" fn trovespan_write_container(
    page_size: u32,
    sizes: &[u32],
    bytes: &[u8],
    out: &mut [u8],
    value: &mut u64,
) -> u32
    ensures { Packs page_size sizes.now bytes.now out.old
        result value.new out.new }
{
    writers_crossing::write_container(page_size, sizes, bytes, out, value)
}
