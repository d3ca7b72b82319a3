// Opening, counting and extracting: the digest after each, which goes on from `d`.
use crate::{Question, untouched};
use replay::{Digest, in_store};

const OPENED: u64 = 11;

const OPEN_REFUSED: u64 = 12;

const COUNTED: u64 = 13;

const COUNT_REFUSED: u64 = 14;

const EXTRACTED: u64 = 17;

const EXTRACT_REFUSED: u64 = 18;

pub(crate) fn open(d: Digest, file: &[u8]) -> Digest {
    match msf::open(file) {
        Ok(c) => {
            let opened = d.plain(OPENED).plain(u64::from(c.pagesize));
            opened.plain(u64::from(c.used))
        }
        Err(why) => d.refused(OPEN_REFUSED, why),
    }
}

pub(crate) fn count(d: Digest, file: &[u8]) -> Digest {
    match msf::stream_count(file) {
        Ok(n) => d.plain(COUNTED).plain(u64::from(n)),
        Err(why) => d.refused(COUNT_REFUSED, why),
    }
}

pub(crate) fn extract(d: Digest, q: Question, file: &[u8], bytes: &mut [u8]) -> Digest {
    in_store(d, bytes, untouched, |d, bytes| {
        match msf::extract(file, q.stream, q.limit, bytes) {
            Ok(n) => d.plain(EXTRACTED).plain(n as u64),
            Err(why) => d.refused(EXTRACT_REFUSED, why),
        }
    })
}
