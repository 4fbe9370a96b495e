//! What `--help` says after the options.

/// What stands after the options in `--help`.
pub(crate) const LINES: &str =
    "Lines of a script (words parted by one space; JSON is the rest of the line):
  open N MAPPING                  begins an index of N copies, 1 to 5; prints nothing
  put C ID JSON                   wrote SEQ TERM VERSION RESULT
  create C ID JSON                the same, for a document that isn't there
  del C ID                        the same with deleted or not_found
  putif C SEQ TERM ID JSON        the same, if the last change has both numbers
  delif C SEQ TERM ID             the same, if the last change has both numbers
  bulk C ID ID ..                 puts of {}, 1 to 100, whose records are kept
                                  together: wrote .. or refused NAME for each
  get C ID                        found SEQ TERM VERSION SOURCE, or missing
  refresh C                       point N: searches show the first N writes
  restart C                       point N: the copy is opened again
  merge C                         merging: a merge of what searches look through
  swap C                          merged: that merge is put in place, if it can be
  search C JSON                   hits TOTAL ID ..
  deliver K                       taken, stale or repeated: message K arrives
  promote C                       C is to be the primary of a new term
  allocate                        copy R: a new copy that joins
  fail R                          the primary reports R, which is to leave
  torn K 0, torn K 1              torn, point N: K arrives, and its append is cut
  tornput C 0 ID JSON             torn, point N: a put whose append is cut (0:
                                  its record is lost; 1: it is kept)
  tornbulk C 0 ID ID ..           the same of a bulk and all its records
C is a copy: 1 takes the writes at first. After what a line prints stand the
messages that it sends, msg K KIND FROM TO (0 is the master), and the writes
that it confirms, ack SEQ TERM: with one copy at once, with more copies when
each has it.
Empty lines and lines that begin with # are passed over. A line that can't be
done prints refused NAME and changes nothing.

Example:
  printf 'open 1 {}\\nput 1 a {\"n\":1}\\nget 1 a\\n' | ./indexd replay -

Exit status: 0; 1 where the script can't be read, the output can't be written
or memory runs out; 2 for a bad command line.
README.md beside the program says more, and what is proved.";

/// What stands after the options of `serve` in `--help`.
pub(crate) const KEPT: &str =
    "With --data DIR each write is on the disk before it is confirmed, and a start finds all
that was confirmed: after the end of the server, a kill, a full disk. DIR is made
where it is missing, and holds mapping.json, master.log and copy-1.rsx, with one more
file for each further copy. One server at a time has it.

With --copies N a write is confirmed when each copy in sync has it. A folder keeps the
copies that it has where --copies isn't given, and gets new ones where it says more.

With --sync together one sync brings all writes to the disk that wait for one, so many
clients get as many writes a second as that gives; each write is confirmed when its sync
has ended. Of writes that no client was told of a crash of the machine may keep some.

Connections that wait take no thread; a request that has come whole takes one while it is
answered. One that isn't whole 30 seconds after its first byte ends its connection.

Example:
  ./indexd serve --port 9200 --index books --mapping books.json --data books.data

Exit status: 0; 1 where the index can't be begun or opened, or the port can't be
had; 2 for a bad command line.";

/// What stands after the options of `dump` in `--help`.
pub(crate) const MOVED: &str =
    "Each document is two lines, as _bulk of Elasticsearch takes them: its id, and its source
on one line. So an index moves to another folder, or to Elasticsearch:
  ./indexd dump --data books.data --mapping >books.json
  ./indexd dump --data books.data --bytes 1000000 --to books.parts
  for part in books.parts/*; do
    curl -X POST localhost:9201/books/_bulk --data-binary @$part
  done
The parts are part-000001.ndjson and so on, and a document's two lines are in one of
them. serve takes a body of 1,048,576 bytes at most.

A server may have the folder: what is whole of its log is written.

Exit status: 0; 1 where the folder can't be read or the output can't be written; 2 for a
bad command line.";

/// What stands after the options of `inspect` in `--help`.
pub(crate) const INSPECTED: &str =
    "Prints a line for each file: `records N`; the same with `torn at byte B` where its end is
torn, as a crash leaves it, and is cut when the copy is opened; and where it is no log
of a copy, or a record of it is damaged, that.

Example:
  ./indexd inspect books.data/copy-1.rsx

Exit status: 0; 1 where a file can't be read, or is no log, or is damaged; 2 for a bad
command line.";

/// What stands after the options of `audit` in `--help`.
pub(crate) const JUDGED: &str =
    "Prints `audit ok`; or `audit failed`, with `Differs` for an entry that the node wouldn't
have answered or `Uncaused` for one that nothing causes, the node (0 is the master) and
the place of the entry, from 0 on. Standard error has it in words, and where it is a
terminal the entry itself, and what the model answers there.

Exit status: 0; 1 where the journals are those of no run, or can't be read; 2 for a
bad command line.";

/// What stands after the options of `draw` in `--help`.
pub(crate) const DRAWN: &str =
    "The picture has a line for the master and for each copy, a row for each step, and an
arrow for each message from its sending to its delivery. Late messages, repeated ones,
those that never arrive and those that are refused look different; a colour stands for
a term. Of journals it marks the entry at which an audit fails.

Example:
  ./indexd draw examples/failover.script >failover.svg

A picture has the first 2,000 steps. Exit status: 0; 1 where FILE can't be read or the
picture can't be written; 2 for a bad command line.";

/// What stands after the options of `load` in `--help`.
pub(crate) const LOADED: &str =
    "Lines of a bulk are those that dump writes, and that _bulk of Elasticsearch takes, each
document with its _id. Documents are written by their ids, so a load that was cut short
may be begun again: nothing doubles. Lines that are refused go to a file, as JSON with
the file, the line, the reason and the text; the others are loaded.

A log that grew by overwrites gets small again by way of a new folder:
  ./indexd dump --data old --mapping >mapping.json
  ./indexd dump --data old | ./indexd load --data new --mapping mapping.json -

Example:
  ./indexd load --port 9200 --index books --id isbn books.ndjson

Prints `loaded N documents`. Exit status: 0; 1 where a line was refused, a file can't be
read, or the server doesn't answer; 2 for a bad command line.";
