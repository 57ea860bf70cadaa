//! The words of the command line.
use std::env::{Env, FillError, args};
use std::io;

// No form has more than five words. Where there is a sixth, the words are none, whatever stands behind it.
const WORDS_READ: usize = 6;

// The arguments behind the first, which is the name by which the program was called. Six of them tell as much as all.
#[derive(Drop)]
struct Behind<'a, R> {
    rt: &'a R,
}

impl<R: Env> Env for Behind<'_, R> {
    fn arg(&self, i: usize, buf: &mut [u8]) -> Result<usize, FillError> {
        if i < WORDS_READ {
            self.rt.arg(i + 1, buf)
        } else {
            Err(FillError::NotPresent)
        }
    }

    fn var(&self, name: &str, buf: &mut [u8]) -> Result<usize, FillError> {
        self.rt.var(name, buf)
    }

    fn var_at(&self, i: usize, buf: &mut [u8]) -> Result<usize, FillError> {
        self.rt.var_at(i, buf)
    }
}

/// The words after the program's name, which may be any bytes, or the first six of them. A word that is not UTF-8 stands in no form, and neither
/// do no words at all: so where there is one, there are none.
pub fn words<R: Env + AllocGlobal>(rt: &R) -> io::Result<Vec<String>> {
    let alloc = rt.alloc();
    match args(&(Behind { rt }, alloc)) {
        Ok(given) => {
            let mut words = Vec::new(alloc);
            for word in given {
                words.push(word)?;
            }
            Ok(words)
        }
        Err(error) if error.kind() == io::ErrorKind::InvalidData => Ok(Vec::new(alloc)),
        Err(error) => Err(error),
    }
}
