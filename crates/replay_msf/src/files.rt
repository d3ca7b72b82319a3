// The files that a list asks about. A file is made of another one and of runs: a place of four bytes, a count of two,
// and so many bytes to put there.
use replay::{half_at, word_at};

// A run's place and count.
const RUN_HEADER: usize = 6;

// A file of the runs and zeros. None where a run is cut or goes past the file.
pub fn make(file: &mut [u8], runs: &[u8]) -> Option<()> {
    file.fill(0);
    apply(file, runs)
}

// A file of the start of another one, as much as `file` has, and the runs.
pub fn edit(file: &mut [u8], from: &[u8], runs: &[u8]) -> Option<()> {
    file.copy_from_slice(from.get(..file.len())?);
    apply(file, runs)
}

// Puts every run into the file.
fn apply(file: &mut [u8], runs: &[u8]) -> Option<()> {
    let mut rest = runs;
    while !rest.is_empty() {
        let (header, after) = rest.split_first_chunk::<RUN_HEADER>()?;
        let (bytes, others) = after.split_at_checked(half_at(header, 4))?;
        let place = word_at(header, 0) as usize;
        let lent = file.get_mut(place..)?.get_mut(..bytes.len())?;
        lent.copy_from_slice(bytes);
        rest = others;
    }
    Some(())
}
