//! The numbers of the three standard streams.

use std::alloc::Global;
use std::fs::{self, Files};
use std::io;
use std::os::fd::AsRawFd;

/// The number of the last standard stream.
const LAST_STREAM: i32 = 2;

/// What can be opened again and again, and each time gets the least number that is free.
trait Openings {
    type Opened: AsRawFd + Drop;

    fn open_one(&mut self) -> io::Result<Self::Opened>;
}

/// Openings of something that can't be written.
#[derive(Clone, Copy)]
struct Unwritable<'a, R> {
    files: &'a R,
}

impl<'a, R: Files> Openings for Unwritable<'a, R>
where
    R::File: AsRawFd,
{
    type Opened = R::File;

    fn open_one(&mut self) -> io::Result<R::File> {
        match fs::open(self.files, "/") {
            Ok(opened) => Ok(opened),
            Err(_) => fs::open(self.files, "/dev/null"),
        }
    }
}

/// Takes the numbers of the standard streams that are closed, so that no file that is opened later stands behind one.
/// They are taken as long as the answer is kept. To write them fails, as at a closed stream, and to read them too, but where
/// the root folder can not be opened: then nothing is read. The error is that of an opening, or `OutOfMemory`.
pub fn take_closed<R: Files>(alloc: Global, rt: &R) -> io::Result<Vec<R::File>>
where
    R::File: AsRawFd,
{
    take_numbers(alloc, &mut Unwritable { files: rt })
}

/// Takes all numbers up to that of the last standard stream.
fn take_numbers<O: Openings>(alloc: Global, openings: &mut O) -> io::Result<Vec<O::Opened>> {
    let mut taken = Vec::new(alloc);
    for _ in 0..=LAST_STREAM {
        let opened = openings.open_one()?;
        if opened.as_raw_fd() > LAST_STREAM {
            return Ok(taken);
        }
        taken.push(opened)?;
    }
    Ok(taken)
}

#[cfg(test)]
mod tests {
    use super::*;
    use std::os::fd::RawFd;
    use std::test::Fail;

    /// A number.
    #[derive(Drop)]
    struct Opened {
        number: i32,
    }

    impl AsRawFd for Opened {
        fn as_raw_fd(&self) -> RawFd {
            self.number
        }
    }

    /// The numbers that are free, in order.
    #[derive(Drop)]
    struct Free<'a> {
        numbers: &'a [i32],
    }

    impl<'a> Openings for Free<'a> {
        type Opened = Opened;

        fn open_one(&mut self) -> io::Result<Opened> {
            match self.numbers.split_first() {
                Some((number, rest)) => {
                    self.numbers = rest;
                    Ok(Opened { number: *number })
                }
                None => Err(io::Error::from(io::ErrorKind::OutOfMemory)),
            }
        }
    }

    #[test]
    fn closed_streams_are_taken_and_no_other(rt: HostRuntime) -> Result<(), Fail> {
        let table: [(&[i32], usize, usize); 5] = [
            (&[3, 4], 0, 1),
            (&[0, 3], 1, 0),
            (&[1, 2, 3], 2, 0),
            (&[2, 5, 6], 1, 1),
            (&[0, 1, 2, 3], 3, 1),
        ];
        for (numbers, count, left) in table {
            let mut free = Free { numbers };
            let taken = take_numbers(rt.alloc(), &mut free)?;
            assert_eq!(rt; taken.len(), count);
            assert_eq!(rt; free.numbers.len(), left);
            for i in 0..taken.len() {
                assert_eq!(rt; taken[i].number, numbers[i]);
            }
        }
        Ok(())
    }

    #[test]
    fn streams_that_are_open_are_left(rt: HostRuntime) -> Result<(), Fail> {
        assert_eq!(rt; take_closed(rt.alloc(), &rt)?.len(), 0);
        let opened = Unwritable { files: &rt }.open_one()?;
        assert!(rt; opened.as_raw_fd() > LAST_STREAM);
        Ok(())
    }
}
