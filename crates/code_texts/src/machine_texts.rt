//! Errors of the machine: memory, a file, or the output.

pub const MEMORY: &str = "\
memory: out of memory

The program allocates memory for its files, for the subnet and for the output. The files need not be
wrong: give the machine more memory, or the program smaller files. The status is 3.
";

pub const READ: &str = "\
read: a file cannot be read

Each file on the command line exists, no read of it fails, and its end comes within 1,048,576 reads
of at most 256 bytes. All files are read before any is checked, except SCRIPT of `run`: that has
only to exist then, and is read while it runs, so part of the report may be printed already. PARTS
and PARTS2 are `-` if there is no such file. The status is 3.

If there is no file `net.topo`, `fabric check net.topo -` prints `fault read net.topo`.
";

pub const WRITE: &str = "\
write: the output cannot be written

Standard output takes all of the output. It does not if a pipe is closed or a disk is full; the
beginning of the output may be written already. The status is 3.
";
