//! The texts of `--help`, behind the list of the arguments.
//!
//! That of `show` says what its two parts are, and when its status is 0, 2 or 3. The lines on each
//! argument stand beside it in `args`. No clause says what a text says: `command_tests` asks each
//! for lines that it must have.

pub(crate) const SHOW_HELP: &str = "\
Prints the signatures, an empty line, and the priorities. Each of the two
parts is a CSV file with a record in each line: first the header, then the
rows in canonical form. The two files load as the same table.
With --no-priorities the second part is its header alone.

Statuses:
  0  the table was printed
  2  usage error, or the table is refused
  3  a file can't be opened, a read or a write failed, or memory ran out";

pub(crate) const LINT_HELP: &str = "\
Prints a line for each fault of the two files, those of the signatures first:
  FILE line L row N: CODE: FIELD \"TEXT\" at PLACE: expected WHAT; CURE
FILE is `signatures` or `priorities`. CODE is what the other subcommands print
for the first fault, and they print no other. PLACE counts bytes from 0, and
stands where the fault is in an expression. CURE is a guess, where there is
one. A row has at most one line, its first fault, and later rows are judged
without it.

If there is no fault, the first line is `no fault`. Then come warnings, which
change no status: of a signature that asks for no byte, and of one that has a
row of another format's signature.

Statuses:
  0  no fault
  2  usage error, or a fault of the two files
  3  a file can't be opened, a read or a write failed, or memory ran out";

pub(crate) const MATCH_HELP: &str = "\
Each line is the PUID of a format, a space, and the number of its first
signature in the table that matches. No line means that no format of the table
matches. Several lines, without --all, mean that no priority decides between
these formats: the file is ambiguous.

With more than one FILE, or with --with-names, each line begins with the
file's name and a tab. If no format matches a file, its line is the name, a
tab and a hyphen. A file with a fault has a line on standard error instead,
and the other files are still identified.

With --files-from the names of the files stand in NAMES, one a line, or with
-0 each ended by a NUL. NAMES may be -, standard input. There may be any
number of names: each file is identified before the next name is read.

With --recursive a folder stands for the files in it and in the folders below
it, in the order of their names. A link in a folder is not followed, and a
pipe, a socket or a device there has a line on standard error.

With --csv there are records of CSV in place of lines. The first one names the
fields: file,puid,signature,name. A file that no format matches has one
record, with its name alone.

With --names each line ends in a tab and the name of its format, and each
record in that name. FORMATS is a CSV file with the header puid,name.

With --progress standard error shows how many files are done, and with
--summary its last line counts them, and the bytes that were read:
  files F identified I several S none N failed E bytes B
I files left one format, S more than one and N none, and E have a fault. With
--all the formats before priorities are counted.

With these five the file's name is printed also if there is only one FILE.

Statuses:
  0  each file was read to its end and its answer was printed, even if that is
     no line
  2  usage error, or the table or FORMATS is refused
  3  a file can't be opened, a read or a write failed, or memory ran out. With
     more than one file the lines that were printed are valid";

pub(crate) const FIND_HELP: &str = "\
Run `conflicts` and `dead` first, and `find` last: they show all that is to be
mended in a table, and `find` stops at the first file with two formats.

The first line is one of three answers:
  decided      at most one format of the table is reported for any file. OUT
               is a certificate of this, which `check` accepts
  witness A B  the formats A and B are both reported for the file OUT, as
               `witness` and `match` show. Two of their signatures match it,
               and no shorter file that these two match gets both formats
  gave up S T  the search gave up on the signatures numbered S and T. OUT is
               not touched
With --hex a second line has the bytes of OUT, unless the search gave up.

`decided` does not mean that the formats are the right ones. A format may be
reported for no file at all, since others are over it: `dead` lists these. And
a priority decides between two formats also where it is the wrong way round.

Where the search gave up, the reason is on standard error:
  more than N rows
    The search needs more rows, which are its states, than the budget. Try ten
    times as many. If it still gives up, change the signatures S and T: fewer
    gaps, an anchor at the beginning or the end of the file, or a priority
    between their formats.
  over 64 signatures outrank S or T: see conflicts
    A certificate can name at most 64 of them. A priority between the formats
    of S and T settles it; fewer priorities over the two may, too.

Statuses:
  0  the table is decided, or a witness was found
  1  the search gave up
  2  usage error, or the table is refused
  3  a file can't be opened or made, a read or a write failed, or memory ran
     out";

pub(crate) const CONFLICTS_HELP: &str = "\
Prints a line for each pair of formats that can both be reported for one file,
or on which the search gave up. The pairs are in table order. Each line is
printed as soon as its pair is searched. Pairs of which one format outranks
the other are left out.
  ambiguous A B S T N  the formats A and B are both reported for a file of N
                       bytes, which the signatures numbered S of A and T of B
                       match. No shorter file that these two match gets both
                       formats. With `tried` behind N one may: the search
                       gave up, and a simple file was tried
  unknown A B S T      the search gave up on the signatures numbered S of A
                       and T of B, and no other two gave a file
With --hex the bytes of the file are the last word of an `ambiguous` line. If
a pair has no line, no file gets both formats. The last line counts the pairs:
  pairs P decided D ambiguous M unknown U

With --class a word behind N tells what a priority between the two formats
would do:
  over   A must be over B. Each file that is reported as A also matches B, so
         B over A would leave no file for A
  under  B must be over A. Each file that is reported as B also matches A
  same   both hold. Whichever is over the other leaves it with no file
  apart  neither holds. Some files are only A's, and others are only B's
  open   one of the two is not known: try a larger --budget
The last line then also counts the classes.

With --only just the pairs of the format PUID are searched.

With --summary each format has a line in place of the pairs. N lines have it,
and then come as many of each class, which is that of a line with A first.
Formats with most lines come first:
  A N over .. under .. same .. apart .. open .. unknown ..

With --files the file of each `ambiguous` line is written to the folder DIR,
which is made if it is missing. Its name is A-B.bin, with _ for each slash.

With --priorities the rows of PRIOS are written to FILE, and after them a row
for each `over` and `under`, in the order of the lines. A pair is left out if,
with the rows before it, it would close a cycle or take a format its last
file. Standard error then has its line:
  not written HIGHER LOWER: cycle
  not written HIGHER LOWER: LOWER would be dead
  not written HIGHER LOWER: unknown
FILE is emptied before the search, so give it another name than PRIOS.

A priority decides a pair even if it leaves a format with no file. So run
`dead`, too. Each two signatures get a search with the whole budget.

Statuses:
  0  no pair that was searched is ambiguous or unknown. Without --only, at
     most one format of the table is reported for any file
  1  some pair is ambiguous or unknown
  2  usage error, the table is refused, or it lacks the format of --only
  3  a file can't be opened or made, a read or a write failed, or memory ran
     out. The lines that were printed are valid, and the last line is missing";

pub(crate) const DEAD_HELP: &str = "\
Prints a line for each format that is not reported for any file, or for which
that is not known:
  dead A       A is reported for no file: A matches no file, or formats over A
               match each of them, too
  unknown A    no signature of A is shown to be alive, and the search gave up
               on at least one
and of the signatures of each other format:
  dead A S     A is not reported for any file that the signature numbered S
               matches
  unknown A S  the search gave up on S
  alive A S N  (with --hex) S matches a file of N bytes for which A is
               reported, and no shorter one; its bytes follow N
The last line is `formats F alive .. dead .. unknown ..` and then the same of
`signatures S`. It counts those of dead and unknown formats too.

A certificate does not say this: a table with dead formats may well be
decided.

Statuses:
  0  each format and each signature is reported for some file
  1  some format or signature is dead or unknown
  2  usage error, or the table is refused
  3  a file can't be opened, a read or a write failed, or memory ran out. The
     lines that were printed are valid, and the last line is missing";

pub(crate) const CHECK_HELP: &str = "\
Prints one line: `accepted`, or `refused` and the first fault of the
certificate. If a certificate is accepted, at most one format of the table is
reported for any file. Pairs, tables and rows of the certificate are counted
from 0, and a byte is two hexadecimal digits.

Statuses:
  0  the certificate is accepted
  1  the certificate is refused
  2  usage error, or the table is refused
  3  a file can't be opened, a read or a write failed, or memory ran out";

pub(crate) const WITNESS_HELP: &str = "\
Prints one line: `ambiguous` and the first two formats of the table that are
reported for the file, or `not ambiguous` if at most one is. An ambiguous file
shows that the table is not decided: no certificate of it is accepted.

Statuses:
  0  the file is ambiguous
  1  the file is not ambiguous
  2  usage error, or the table is refused
  3  a file can't be opened, a read or a write failed, or memory ran out";
