// A reader, such as standard input, so many bytes at a time.
#![tactic(auto)]

ghost use Rattle.std.specs.Counts.{IsPrefixLen};

use std::io::Read;

// As many bytes as there are and as the buffer holds. A read that fails ends them, as the end does.
// Kept: a `while`, since it goes on by what each read gave; `read_exact` doesn't tell how many bytes a short input had.
pub fn read_full<R: Read>(from: &mut R, buf: &mut [u8]) -> usize
    ensures { IsPrefixLen result buf.new }
{
    let mut done = 0;
    while done < buf.len()
        && let Ok(n @ 1..) = from.read(&mut buf[done..])
    {
        done += n;
    }
    done
}

// As many of the next n bytes as there are and as the buffer holds.
pub fn take_in<R: Read>(from: &mut R, buf: &mut [u8], n: usize) -> usize
    ensures { IsPrefixLen result buf.new }
{
    let many = n.min(buf.len());
    read_full(from, &mut buf[..many])
}

// Where a read failed, as of a folder or a closed descriptor, the next read fails too; at the end it gives 0.
pub fn unreadable<R: Read>(from: &mut R) -> bool {
    from.read(&mut [0]).is_err()
}
