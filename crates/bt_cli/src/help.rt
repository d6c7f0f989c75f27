//! What stands at the end of each command's help: its lines, its numbers and its statuses.

pub const SCRIPT: &str = "\
Lines:
  torrent PIECE_LEN TOTAL WORKERS HASH..   the first line: lengths in bytes, and the SHA-1 of each piece
  rules DEPTH RANDOM OPEN RUSH yes|no      if it is there, the next one: 1 to 64 blocks are requested from a peer at a time,
                                           and pieces are picked at random until RANDOM are complete, no more than there
                                           are; the last three may be left out, from the end: so many pieces may be open, 0
                                           to 1,024, which are begun and have an unrequested block, before begun ones come
                                           first; in endgame a block is requested again only from a peer with fewer than
                                           RUSH requests, 0 to 4,096; yes where endgame waits only for pieces that a joined
                                           peer shows, no where it waits for all wanted ones;
                                           else it is `rules 5 1 0 4096 no`
  W join | W leave                         the peer of worker W has sent its handshake | is gone
  W bits HEX | W have P                    it shows the pieces of this bitfield | piece P
  W choke | W unchoke                      it chokes us | no longer
  W next WORD                              queries what to send to it next; WORD settles what is left to chance
  W block P BEGIN HEX                      a block of piece P came, which begins at byte BEGIN of it
  W settle P                               checks piece P
  W want HEX                               just the pieces of this bitfield are to be downloaded, and have level 4;
                                           until such a line, or one of levels, all are
  W haves HEX                              it has the pieces of this bitfield too, whenever it says so
  W lack P                                 it has piece P no more, and its requests of that piece are released
  W depth N                                from now on N blocks may be requested from it at a time, 1 to 64
  W reach L                                it gets requests of level L, 0 to 7, and lower ones alone; 7 as it joins
  W release P BEGIN                        the block of piece P at byte BEGIN is requested from it no more
  W late P BEGIN                           that request takes too long: it stays, and others may get one for the block
  W alone yes | W alone no                 from now on it works alone | like the others, as when it joins; before endgame one
                                           that works alone gets requests only of pieces of which no other peer brought a
                                           block, or is expected to; no other gets one of such a piece, unless it chokes us
  W level P L                              piece P has level L, 0 to 7: 0 isn't downloaded, and a higher level comes first
  W levels DIGITS                          each piece has the level of its digit, that of the first piece first
  W inorder yes | W inorder no             pieces of one level come in rising order | the rarest first, as at the start
  W inorderfrom L                          pieces of level L, 0 to 8, and of higher ones come in rising order, the others
                                           the rarest first; 0 says the same as inorder yes, and 8 as inorder no
  Numbers are in base ten; workers count from 0, and there are 1 to 1024. An empty line says nothing.

Replies, a line each:
  joined | quiet                           done
  noted yes | noted no                     done; the peer shows a wanted piece that is lacking, or none
  cancel P BEGIN LEN                       tell the peer that this block is no longer wanted
  request P BEGIN LEN                      request this block from the peer
  choked | pipefull                        the peer chokes us | has as many requests as it may
  idle | nothing                           nothing to request now | the peer shows nothing wanted that is lacking
  stored | completed | dropped             the block is held | is the last of its piece, which is full | was held before
  had | failed                             the piece is complete | has another hash, and is requested again
  refused N                                the call isn't allowed, and changes nothing:
    1 the peer hasn't joined               2 it has joined before
    3 a bitfield comes after another call  4 the bitfield, or the levels, aren't of so many pieces
    5 there is no such piece               6 no block begins there
    7 the block has another length         8 the piece doesn't wait for a check
    9 the piece has changed since it was hashed
    10 the block isn't requested from it    11 the depth is 0, or more than may be set
    12 a level or a reach is above 7, or the level of inorderfrom is above 8

Status: 0 the whole script was played; 2 `line N`, the first line at fault, counted from 1 (another form, a number
out of range, no such worker, a torrent or a bitfield that can't be, rules that stand elsewhere); 4 `file fault`,
standard input or output; 5 `memory`, there isn't enough.";

pub const INFO: &str = "\
Prints, a line each:
  name NAME         bytes but printable ASCII, and %, as % and two hexadecimal digits
  infohash HEX      the SHA-1 of the info dictionary
  piecelength N     in bytes
  total N           the bytes of the content
  pieces N
  last N            the bytes of the last piece
  blocks N          in all pieces, of 16384 bytes but for the last of a piece
  files N
With --files, a line for each file in the order of the content:
  file N NAME..     its bytes, and the names on its path, spelled as above; the first one is the torrent's

Status: 0 done; 3 `metainfo fault N`, the file isn't a metainfo file; 4 `file fault`, META can't be read, or
standard output fails; 5 `memory`, there isn't enough.
  1 no bencode                              2 the file isn't a dictionary
  3 a key is missing                        4 a key's value is of another kind
  5 the piece length isn't 1 to 2^31        6 `pieces` isn't of digests of 20 bytes
  7 both `length` and `files` are there     8 there is no content
  9 another number of digests than pieces  10 the content or its number of pieces is too large";

pub const SERIAL: &str = "\
Stream I is worker I of the journal, from 0; one more worker says first which pieces are wanted, if --want is given,
and checks the pieces that are left at the end. The file of --out is made where all pieces are complete, wanted or not.

Prints, behind the journal:
  stream I end      the stream was played to its end
  stream I fault N  it was ended:
    1 a message isn't one of the protocol   2 the handshake is of another torrent
    3 the stream breaks off in a message    4 the picker refused a call (`piecepick script --help`)
    5 the stream can't be read              6 what is said to the peer can't be written
    7 there isn't enough memory             8 the bitfield isn't one of this torrent
  pieces N          how many there are
  had N             how many are complete
  missing P.. | -   the wanted pieces that aren't complete
  complete yes | no
  journal ok        each entry of the journal is one that the rules allow
  journal bad N     entry N isn't, counted from 0

Status: 0 all wanted pieces are complete; 1 not all; 2 wrong arguments, or one that isn't of META's torrent; 3 `metainfo
fault N` (`piecepick info --help`); 4 `file fault`, META can't be read, a STREAM can't be opened, or FILE or standard
output can't be written; 5 `memory`, there wasn't enough. A STREAM that is open and can't be read ends its own session,
and the status is 0 or 1 as ever. Standard error names the file of each stream that was ended by a fault, and why.
There are 1 to 64 streams, and FILE is none of them and not META. Not of META's torrent, the first of these:
  want fault 1      HEX isn't a byte for each eight pieces
  want fault 2      a spare bit at the end is set
  random fault      there are fewer pieces than --random says";

pub const RUN: &str = "\
Each STREAM is played in a thread of its own, by worker I of one desk, from 0; --checkers threads check the pieces, and
one more worker those that are left at the end. All pieces are wanted. In which order the workers call isn't known
beforehand, so another run may request other blocks. The file of --out is made where all pieces are complete.

Prints:
  stream I end      the stream was played to its end
  stream I fault N  it was ended (`piecepick serial --help`)
  pieces N          how many there are
  had N             how many are complete
  missing P.. | -   the pieces that aren't complete
  complete yes | no
  journal ok        each entry of the desk's journal is one that the rules allow
  journal bad N     entry N isn't, counted from 0

Status: 0 all pieces are complete; 1 not all; 2 wrong arguments, or `random fault`, there are fewer pieces than --random
says; 3 `metainfo fault N` (`piecepick info --help`); 4 `file fault`, META can't be read, a STREAM can't be opened, or
FILE or standard output can't be written; 5 `memory`, there wasn't enough, or `no thread`, one couldn't be started;
6 `gather fault N`, what the workers noted isn't what the journal has, and nothing is printed. A STREAM that is open and
can't be read ends its own session, and the status is 0 or 1 as ever. Standard error names the file of each stream that
was ended by a fault, and why. There are 1 to 64 streams, and FILE is none of them and not META. The first of these:
  gather fault 1    they noted another number of calls
  gather fault 2    a worker's calls aren't those that the journal has of it
  gather fault 3    the pieces that were announced as complete aren't those of the journal";
