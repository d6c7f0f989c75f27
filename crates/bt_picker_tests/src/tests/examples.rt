//! Written anew by each run of tools/examples.py: the worked examples of the rules as texts, each with replies that would be wrong in it.
//!
//! An example's first line is its name, the next ones are its torrent and how many workers it has, its depth, how many pieces it picks at
//! random, of how many peers a block is asked in endgame, which depth may be told at most, how many pieces may be open, of how few blocks a peer
//! is asked that is asked for one again, and 1 where endgame waits for what is shown alone, else 0. Then come its lines, and behind `but`, each
//! behind the number of lines that come before, those that mustn't come. Between two examples stands an empty line.

pub const COUNT: u32 = 114;

pub const EXAMPLES: &str = "\
first request
3 7 abc abc a
1 5 1 1024 64 0 4096 0
0 join = joined
0 bits e0 = noted yes
0 unchoke = quiet
0 next 5 = request 2 0 1
but
1 0 bits e0 = noted no
3 0 next 5 = request 2 0 3

another first request
3 7 abc abc a
1 5 1 1024 64 0 4096 0
0 join = joined
0 bits e0 = noted yes
0 unchoke = quiet
0 next 5 = request 0 0 3
but
3 0 next 5 = nothing

one peer to the end
3 7 abc abc a
1 5 1 1024 64 0 4096 0
0 join = joined
0 bits e0 = noted yes
0 unchoke = quiet
0 next 5 = request 2 0 1
0 next 0 = request 0 0 3
0 next 0 = request 1 0 3
0 next 0 = idle
0 block 2 0 a = completed
0 settle 2 a = had
0 block 0 0 abc = completed
0 settle 0 abc = had
0 block 1 0 abc = completed
0 settle 1 abc = had
0 next 0 = nothing
but
3 0 next 5 = idle

rarest first
3 7 abc abc a
2 5 1 1024 64 0 4096 0
0 join = joined
0 bits e0 = noted yes
1 join = joined
1 bits 40 = noted yes
0 unchoke = quiet
0 next 2 = request 2 0 1
0 block 2 0 a = completed
0 settle 2 a = had
0 next 1 = request 0 0 3
but
8 0 next 1 = request 1 0 3

full pipe
1000000 1000000 million
2 5 1 1024 64 0 4096 0
0 join = joined
0 bits 80 = noted yes
0 unchoke = quiet
0 next 0 = request 0 0 16384
0 next 0 = request 0 16384 16384
0 next 0 = request 0 32768 16384
0 next 0 = request 0 49152 16384
0 next 0 = request 0 65536 16384
0 next 0 = pipefull
but
8 0 next 0 = request 0 81920 16384
7 0 next 0 = pipefull

choke frees
1000000 1000000 million
2 5 1 1024 64 0 4096 0
0 join = joined
0 bits 80 = noted yes
0 unchoke = quiet
0 next 0 = request 0 0 16384
0 next 0 = request 0 16384 16384
0 next 0 = request 0 32768 16384
0 next 0 = request 0 49152 16384
0 next 0 = request 0 65536 16384
0 next 0 = pipefull
0 choke = quiet
1 join = joined
1 bits 80 = noted yes
1 unchoke = quiet
1 next 0 = request 0 0 16384
0 next 0 = choked
but
13 0 next 0 = pipefull

cancel in endgame
3 3 abc
2 5 1 1024 64 0 4096 0
0 join = joined
0 bits 80 = noted yes
0 unchoke = quiet
1 join = joined
1 bits 80 = noted yes
1 unchoke = quiet
0 next 0 = request 0 0 3
1 next 0 = request 0 0 3
0 block 0 0 abc = completed
1 next 0 = cancel 0 0 3
1 next 0 = idle
0 settle 0 abc = had
1 next 0 = nothing
1 block 0 0 abc = dropped
but
9 1 next 0 = idle

no double before endgame
3 6 abc abc
2 5 1 1024 64 0 4096 0
0 join = joined
0 bits c0 = noted yes
0 unchoke = quiet
0 next 0 = request 0 0 3
1 join = joined
1 bits 80 = noted yes
1 unchoke = quiet
1 next 0 = idle
but
7 1 next 0 = request 0 0 3

double outlasts endgame
3 6 abc abc
4 5 1 1024 64 0 4096 0
0 join = joined
0 bits 80 = noted yes
0 unchoke = quiet
2 join = joined
2 bits 40 = noted yes
2 unchoke = quiet
1 join = joined
1 bits 80 = noted yes
1 unchoke = quiet
0 next 0 = request 0 0 3
2 next 0 = request 1 0 3
1 next 0 = request 0 0 3
2 choke = quiet
3 join = joined
3 bits 80 = noted yes
3 unchoke = quiet
3 next 0 = idle
0 block 0 0 abc = completed
1 next 0 = cancel 0 0 3
but
16 3 next 0 = request 0 0 3

failed check
3 7 abc abc a
1 5 1 1024 64 0 4096 0
0 join = joined
0 bits e0 = noted yes
0 unchoke = quiet
0 next 0 = request 0 0 3
0 block 0 0 abd = completed
0 settle 0 abd = failed
0 next 0 = request 0 0 3
0 settle 0 abd = refused NotWaiting
but
7 0 settle 0 abd = refused Stale

failed check in endgame
3 3 abc
2 5 1 1024 64 0 4096 0
0 join = joined
0 bits 80 = noted yes
0 unchoke = quiet
1 join = joined
1 bits 80 = noted yes
1 unchoke = quiet
0 next 0 = request 0 0 3
1 next 0 = request 0 0 3
0 block 0 0 abd = completed
0 settle 0 abd = failed
1 next 0 = cancel 0 0 3
1 next 0 = request 0 0 3
but
9 0 settle 0 abd = had
9 0 settle 0 abc = had

held block dropped
3 7 abc abc a
1 5 1 1024 64 0 4096 0
0 join = joined
0 block 2 0 a = completed
0 block 2 0 a = dropped
but
2 0 block 2 0 a = completed
2 0 bits e0 = noted yes

block by block
32768 65536 abc abc
1 5 1 1024 64 0 4096 0
0 join = joined
0 block 0 0 whole = stored
0 block 0 0 whole = dropped
0 block 0 16384 whole = completed
but
3 0 block 0 16384 whole = stored

refusals
3 7 abc abc a
2 5 1 1024 64 0 4096 0
0 leave = refused NotJoined
1 block 9 9 a = refused NotJoined
0 join = joined
0 join = refused AlreadyJoined
0 have 0 = noted yes
0 bits e0 = refused LateBits
0 have 3 = refused NoSuchPiece
0 block 3 1 a = refused NoSuchPiece
0 block 0 1 bc = refused NoSuchBlock
0 block 0 0 ab = refused WrongLength
0 settle 0 a = refused NotWaiting
0 settle 3 a = refused NoSuchPiece
0 leave = quiet
0 join = joined
0 bits e0 = noted yes
1 join = joined
1 bits 00 = noted no
1 unchoke = quiet
1 next 0 = nothing
but
8 0 block 0 1 bc = refused WrongLength

wrong count
3 7 abc abc a
1 5 1 1024 64 0 4096 0
0 join = joined
0 no-bits-of 4 = refused WrongCount
0 bits e0 = noted yes
but
1 0 no-bits-of 4 = noted no

stale verdict
3 7 abc abc a
1 5 1 1024 64 0 4096 0
0 join = joined
0 block 0 0 abd = completed
0 settle 0 abd = failed
0 block 0 0 abc = completed
0 settle 0 abd = refused Stale
0 settle 0 abc = had
0 settle 0 abc = refused NotWaiting
0 settle 9 a = refused NoSuchPiece
0 choke = quiet
0 leave = quiet
but
4 0 settle 0 abd = failed

random first piece
3 7 abc abc a
2 5 1 1024 64 0 4096 0
0 join = joined
0 bits e0 = noted yes
0 unchoke = quiet
1 join = joined
1 bits c0 = noted yes
0 next 1 = request 1 0 3
but
5 0 next 1 = idle

rare first piece too
3 7 abc abc a
2 5 1 1024 64 0 4096 0
0 join = joined
0 bits e0 = noted yes
0 unchoke = quiet
1 join = joined
1 bits c0 = noted yes
0 next 1 = request 2 0 1
but
5 0 next 1 = pipefull

strict priority
32768 65536 abc abc
1 5 1 1024 64 0 4096 0
0 join = joined
0 bits c0 = noted yes
0 unchoke = quiet
0 next 0 = request 0 0 16384
0 next 1 = request 0 16384 16384
0 next 1 = request 1 0 16384
but
4 0 next 1 = request 1 0 16384

gone peer not counted
3 7 abc abc a
3 5 1 1024 64 0 4096 0
0 join = joined
0 bits e0 = noted yes
1 join = joined
1 bits 80 = noted yes
2 join = joined
2 bits 40 = noted yes
1 leave = quiet
0 unchoke = quiet
0 next 2 = request 2 0 1
0 block 2 0 a = completed
0 settle 2 a = had
0 next 1 = request 0 0 3
but
11 0 next 1 = request 1 0 3

rejoin in endgame
3 3 abc
2 5 1 1024 64 0 4096 0
0 join = joined
0 bits 80 = noted yes
0 unchoke = quiet
1 join = joined
1 bits 80 = noted yes
1 unchoke = quiet
0 next 0 = request 0 0 3
1 next 0 = request 0 0 3
0 leave = quiet
0 join = joined
0 next 0 = choked
1 block 0 0 abd = completed
1 settle 0 abd = failed
0 bits 80 = noted yes
0 unchoke = quiet
0 next 0 = request 0 0 3
but
10 0 next 0 = request 0 0 3

depth two
1000000 1000000 million
1 2 1 1024 64 0 4096 0
0 join = joined
0 bits 80 = noted yes
0 unchoke = quiet
0 next 0 = request 0 0 16384
0 next 0 = request 0 16384 16384
0 next 0 = pipefull
but
5 0 next 0 = request 0 32768 16384
4 0 next 0 = pipefull

deep pipe
1000000 1000000 million
1 64 1 1024 64 0 4096 0
0 join = joined
0 bits 80 = noted yes
0 unchoke = quiet
0 next 0 = request 0 0 16384
0 next 0 = request 0 16384 16384
0 next 0 = request 0 32768 16384
0 next 0 = request 0 49152 16384
0 next 0 = request 0 65536 16384
0 next 0 = request 0 81920 16384
0 next 0 = request 0 98304 16384
0 next 0 = request 0 114688 16384
but
8 0 next 0 = pipefull

rarest from the start
3 7 abc abc a
2 5 0 1024 64 0 4096 0
0 join = joined
0 bits e0 = noted yes
0 unchoke = quiet
1 join = joined
1 bits c0 = noted yes
0 next 1 = request 2 0 1
but
5 0 next 1 = request 1 0 3

second piece at random
3 7 abc abc a
2 5 2 1024 64 0 4096 0
0 join = joined
0 bits e0 = noted yes
1 join = joined
1 bits 40 = noted yes
0 unchoke = quiet
0 next 2 = request 2 0 1
0 block 2 0 a = completed
0 settle 2 a = had
0 next 1 = request 1 0 3
but
8 0 next 1 = idle

rarest after two pieces
3 12 abc abc abc abc
2 5 2 1024 64 0 4096 0
0 join = joined
0 bits f0 = noted yes
0 unchoke = quiet
1 join = joined
1 bits 30 = noted yes
0 next 0 = request 0 0 3
0 block 0 0 abc = completed
0 settle 0 abc = had
0 next 2 = request 2 0 3
0 block 2 0 abc = completed
0 settle 2 abc = had
0 next 3 = request 1 0 3
but
11 0 next 3 = request 3 0 3

wants
3 7 abc abc a
2 5 1 1024 64 0 4096 0
1 want 40 = quiet
0 join = joined
0 bits e0 = noted yes
0 unchoke = quiet
0 next 0 = request 1 0 3
0 next 0 = idle
0 want a0 = quiet
0 next 0 = request 0 0 3
0 want 00 = quiet
0 next 0 = nothing
0 block 1 0 abc = completed
0 settle 1 abc = had
0 want 40 = quiet
0 have 2 = noted no
1 want-none-of 4 = refused WrongCount
but
5 0 next 0 = request 0 0 3
9 0 next 0 = request 2 0 1
9 0 next 0 = idle
13 0 have 2 = noted yes
0 1 want 40 = refused NotJoined
14 1 want-none-of 4 = quiet

endgame of the wanted
3 6 abc abc
2 5 1 1024 64 0 4096 0
0 join = joined
0 bits c0 = noted yes
0 unchoke = quiet
1 join = joined
1 bits c0 = noted yes
1 unchoke = quiet
0 next 0 = request 0 0 3
1 want 80 = quiet
1 next 0 = request 0 0 3
1 want c0 = quiet
0 next 0 = request 1 0 3
but
8 1 next 0 = idle

want before the bits
3 7 abc abc a
1 5 1 1024 64 0 4096 0
0 join = joined
0 want 40 = quiet
0 bits e0 = noted yes
but
2 0 bits e0 = refused LateBits

asked stays asked
3 6 abc abc
2 5 1 1024 64 0 4096 0
0 join = joined
0 bits c0 = noted yes
0 unchoke = quiet
1 join = joined
1 bits c0 = noted yes
1 unchoke = quiet
0 next 0 = request 0 0 3
0 want 40 = quiet
0 next 0 = request 1 0 3
0 want c0 = quiet
1 next 0 = request 0 0 3
0 block 0 0 abc = completed
1 next 0 = cancel 0 0 3
but
10 0 next 0 = request 0 0 3

released is asked elsewhere
3 6 abc abc
2 5 1 1024 64 0 4096 0
0 join = joined
0 bits c0 = noted yes
0 unchoke = quiet
1 join = joined
1 bits 80 = noted yes
1 unchoke = quiet
0 next 0 = request 0 0 3
1 next 0 = idle
0 release 0 0 = quiet
1 next 0 = request 0 0 3
0 next 0 = request 1 0 3
but
9 1 next 0 = idle

released in endgame
3 3 abc
2 5 1 1024 64 0 4096 0
0 join = joined
0 bits 80 = noted yes
0 unchoke = quiet
1 join = joined
1 bits 80 = noted yes
1 unchoke = quiet
0 next 0 = request 0 0 3
1 next 0 = request 0 0 3
0 release 0 0 = quiet
1 next 0 = idle
1 block 0 0 abc = completed
0 next 0 = idle
1 settle 0 abc = had
0 next 0 = nothing
but
9 1 next 0 = cancel 0 0 3
11 0 next 0 = cancel 0 0 3

released piece is unbegun
32768 65536 abc abc
1 5 1 1024 64 0 4096 0
0 join = joined
0 bits c0 = noted yes
0 unchoke = quiet
0 next 0 = request 0 0 16384
0 release 0 0 = quiet
0 next 1 = request 1 0 16384
0 next 0 = request 1 16384 16384
0 next 0 = request 0 0 16384
but
6 0 next 0 = request 0 16384 16384

released is asked again
3 3 abc
1 5 1 1024 64 0 4096 0
0 join = joined
0 bits 80 = noted yes
0 unchoke = quiet
0 next 0 = request 0 0 3
0 next 0 = idle
0 release 0 0 = quiet
0 next 0 = request 0 0 3
but
6 0 next 0 = idle

released arrives after all
32768 65536 abc abc
1 5 1 1024 64 0 4096 0
0 join = joined
0 bits c0 = noted yes
0 unchoke = quiet
0 next 0 = request 0 0 16384
0 release 0 0 = quiet
0 block 0 0 whole = stored
0 next 0 = request 0 16384 16384
but
5 0 block 0 0 whole = dropped

late is asked elsewhere
3 6 abc abc
2 5 1 1024 64 0 4096 0
0 join = joined
0 bits c0 = noted yes
0 unchoke = quiet
1 join = joined
1 bits 80 = noted yes
1 unchoke = quiet
0 next 0 = request 0 0 3
1 next 0 = idle
0 late 0 0 = quiet
1 next 0 = request 0 0 3
0 next 0 = request 1 0 3
1 block 0 0 abc = completed
0 next 0 = cancel 0 0 3
but
9 1 next 0 = idle
10 0 next 0 = request 0 0 3
10 0 next 0 = idle
12 0 next 0 = idle

late holds up endgame
3 6 abc abc
3 5 1 1024 64 0 4096 0
0 join = joined
0 bits c0 = noted yes
0 unchoke = quiet
1 join = joined
1 bits 40 = noted yes
1 unchoke = quiet
0 next 0 = request 0 0 3
1 next 1 = request 1 0 3
0 late 0 0 = quiet
0 next 0 = idle
2 join = joined
2 bits 80 = noted yes
2 unchoke = quiet
2 next 0 = request 0 0 3
0 next 0 = request 1 0 3
but
9 0 next 0 = request 1 0 3
9 0 next 0 = nothing
14 0 next 0 = idle

late in spite of one asker
3 3 abc
3 5 1 1 64 0 4096 0
0 join = joined
0 bits 80 = noted yes
0 unchoke = quiet
1 join = joined
1 bits 80 = noted yes
1 unchoke = quiet
2 join = joined
2 bits 80 = noted yes
2 unchoke = quiet
0 next 0 = request 0 0 3
1 next 0 = idle
0 late 0 0 = quiet
1 next 0 = request 0 0 3
0 late 0 0 = quiet
2 next 0 = idle
1 late 0 0 = quiet
2 next 0 = request 0 0 3
but
12 1 next 0 = idle
13 0 late 0 0 = refused NotAsked
14 2 next 0 = request 0 0 3

late no more
3 6 abc abc
2 5 1 1024 64 0 4096 0
0 join = joined
0 bits c0 = noted yes
0 unchoke = quiet
1 join = joined
1 bits 80 = noted yes
1 unchoke = quiet
0 next 0 = request 0 0 3
0 late 0 0 = quiet
0 block 0 0 abd = completed
0 settle 0 abd = failed
0 next 0 = request 0 0 3
1 next 0 = idle
0 late 0 0 = quiet
0 choke = quiet
0 unchoke = quiet
0 next 0 = request 0 0 3
1 next 0 = idle
but
11 1 next 0 = request 0 0 3
16 1 next 0 = request 0 0 3

depth of one
1000000 1000000 million
1 5 1 1024 64 0 4096 0
0 join = joined
0 bits 80 = noted yes
0 unchoke = quiet
0 depth 1 = quiet
0 next 0 = request 0 0 16384
0 next 0 = pipefull
but
5 0 next 0 = request 0 16384 16384

deepened
1000000 1000000 million
1 5 1 1024 64 0 4096 0
0 join = joined
0 bits 80 = noted yes
0 unchoke = quiet
0 next 0 = request 0 0 16384
0 next 0 = request 0 16384 16384
0 next 0 = request 0 32768 16384
0 next 0 = request 0 49152 16384
0 next 0 = request 0 65536 16384
0 next 0 = pipefull
0 depth 7 = quiet
0 next 0 = request 0 81920 16384
0 next 0 = request 0 98304 16384
0 next 0 = pipefull
but
10 0 next 0 = pipefull

depth outlasts a choke
1000000 1000000 million
1 5 1 1024 64 0 4096 0
0 join = joined
0 bits 80 = noted yes
0 unchoke = quiet
0 depth 2 = quiet
0 next 0 = request 0 0 16384
0 next 0 = request 0 16384 16384
0 next 0 = pipefull
0 choke = quiet
0 unchoke = quiet
0 next 0 = request 0 0 16384
0 next 0 = request 0 16384 16384
0 next 0 = pipefull
but
11 0 next 0 = request 0 32768 16384

depth goes with its peer
1000000 1000000 million
1 5 1 1024 64 0 4096 0
0 join = joined
0 bits 80 = noted yes
0 unchoke = quiet
0 depth 1 = quiet
0 next 0 = request 0 0 16384
0 next 0 = pipefull
0 leave = quiet
0 join = joined
0 bits 80 = noted yes
0 unchoke = quiet
0 next 0 = request 0 0 16384
0 next 0 = request 0 16384 16384
but
11 0 next 0 = pipefull

smaller depth
1000000 1000000 million
1 5 1 1024 64 0 4096 0
0 join = joined
0 bits 80 = noted yes
0 unchoke = quiet
0 next 0 = request 0 0 16384
0 next 0 = request 0 16384 16384
0 next 0 = request 0 32768 16384
0 depth 2 = quiet
0 next 0 = pipefull
0 block 0 0 whole = stored
0 next 0 = pipefull
0 block 0 16384 whole = stored
0 next 0 = request 0 49152 16384
0 next 0 = pipefull
but
7 0 next 0 = request 0 49152 16384
11 0 next 0 = pipefull

one asker
3 3 abc
2 5 1 1 64 0 4096 0
0 join = joined
0 bits 80 = noted yes
0 unchoke = quiet
1 join = joined
1 bits 80 = noted yes
1 unchoke = quiet
0 next 0 = request 0 0 3
1 next 0 = idle
0 release 0 0 = quiet
1 next 0 = request 0 0 3
0 next 0 = idle
but
7 1 next 0 = request 0 0 3

two askers
3 3 abc
3 5 1 2 64 0 4096 0
0 join = joined
0 bits 80 = noted yes
0 unchoke = quiet
1 join = joined
1 bits 80 = noted yes
1 unchoke = quiet
0 next 0 = request 0 0 3
1 next 0 = request 0 0 3
2 join = joined
2 bits 80 = noted yes
2 unchoke = quiet
2 next 0 = idle
1 choke = quiet
2 next 0 = request 0 0 3
but
11 2 next 0 = request 0 0 3
7 1 next 0 = idle

no depth may be told
3 7 abc abc a
1 5 1 1024 0 0 4096 0
0 join = joined
0 depth 1 = refused WrongDepth
but
1 0 depth 1 = quiet

greatest depth
3 7 abc abc a
1 5 1 1024 9999 0 4096 0
0 join = joined
0 depth 4097 = refused WrongDepth
0 depth 4096 = quiet
but
1 0 depth 4097 = quiet

refusals of release and depth
3 7 abc abc a
2 5 1 1024 64 0 4096 0
0 release 0 0 = refused NotJoined
0 depth 3 = refused NotJoined
0 join = joined
0 bits e0 = noted yes
0 unchoke = quiet
0 release 0 0 = refused NotAsked
0 next 0 = request 0 0 3
1 join = joined
1 bits 80 = noted yes
1 unchoke = quiet
1 release 0 0 = refused NotAsked
0 release 0 1 = refused NotAsked
0 release 9 0 = refused NotAsked
0 depth 0 = refused WrongDepth
0 depth 65 = refused WrongDepth
0 depth 64 = quiet
0 release 0 0 = quiet
0 release 0 0 = refused NotAsked
but
5 0 release 0 0 = quiet
10 1 release 0 0 = quiet
13 0 depth 0 = quiet
14 0 depth 65 = quiet
17 0 release 0 0 = quiet

haves after a bitfield
3 7 abc abc a
1 5 1 1024 64 0 4096 0
0 join = joined
0 bits 80 = noted yes
0 haves 40 = noted yes
0 unchoke = quiet
0 next 0 = request 1 0 3
0 block 1 0 abc = completed
0 settle 1 abc = had
0 next 0 = request 0 0 3
0 next 0 = idle
but
5 0 next 0 = idle
7 0 next 0 = nothing

haves after a have
3 7 abc abc a
1 5 1 1024 64 0 4096 0
0 join = joined
0 have 2 = noted yes
0 haves 80 = noted yes
0 bits e0 = refused LateBits
0 unchoke = quiet
0 next 0 = request 2 0 1
0 next 0 = request 0 0 3
0 next 0 = idle
but
3 0 bits e0 = noted yes

haves of none
3 7 abc abc a
2 5 1 1024 64 0 4096 0
0 haves e0 = refused NotJoined
0 join = joined
0 haves-none-of 4 = refused WrongCount
0 haves 00 = noted no
0 bits e0 = refused LateBits
0 unchoke = quiet
0 next 0 = nothing
1 join = joined
1 bits 80 = noted yes
1 haves 00 = noted yes
1 unchoke = quiet
1 next 0 = request 0 0 3
but
9 1 haves 00 = noted no

haves are counted
3 7 abc abc a
2 5 0 1024 64 0 4096 0
0 join = joined
0 bits e0 = noted yes
0 unchoke = quiet
1 join = joined
1 bits 80 = noted yes
1 haves 20 = noted yes
0 next 0 = request 1 0 3
but
6 0 next 0 = request 2 0 1

two levels
3 12 abc abc abc abc
3 5 0 1024 64 0 4096 0
2 levels 2772 = quiet
0 join = joined
0 bits f0 = noted yes
0 unchoke = quiet
1 join = joined
1 bits c0 = noted yes
1 unchoke = quiet
2 join = joined
2 bits 70 = noted yes
2 unchoke = quiet
0 next 0 = request 2 0 3
1 next 0 = request 1 0 3
2 next 0 = request 3 0 3
0 next 0 = request 0 0 3
1 next 0 = request 0 0 3
but
10 0 next 0 = request 0 0 3
10 0 next 0 = request 1 0 3
11 1 next 0 = request 0 0 3
12 2 next 0 = request 2 0 3

raised in mid download
32768 65536 abc abc
1 5 1 1024 64 0 4096 0
0 join = joined
0 bits c0 = noted yes
0 unchoke = quiet
0 next 0 = request 0 0 16384
0 level 1 5 = quiet
0 next 0 = request 1 0 16384
0 next 0 = request 1 16384 16384
0 next 0 = request 0 16384 16384
but
5 0 next 0 = request 0 16384 16384

streaming
3 12 abc abc abc abc
1 5 1 1024 64 0 4096 0
0 join = joined
0 bits f0 = noted yes
0 unchoke = quiet
0 inorder yes = quiet
0 level 2 5 = quiet
0 next 0 = request 2 0 3
0 next 0 = request 0 0 3
0 level 2 4 = quiet
0 level 3 5 = quiet
0 next 0 = request 3 0 3
0 next 0 = request 1 0 3
but
5 0 next 0 = request 0 0 3
6 0 next 0 = request 3 0 3
9 0 next 0 = request 1 0 3

earlier piece in order
32768 65536 abc abc
1 5 1 1024 64 0 4096 0
0 join = joined
0 bits 40 = noted yes
0 unchoke = quiet
0 next 0 = request 1 0 16384
0 inorder yes = quiet
0 have 0 = noted yes
0 next 0 = request 0 0 16384
0 next 0 = request 0 16384 16384
0 next 0 = request 1 16384 16384
but
6 0 next 0 = request 1 16384 16384

in order told off
3 12 abc abc abc abc
2 5 0 1024 64 0 4096 0
0 join = joined
0 bits f0 = noted yes
0 unchoke = quiet
1 join = joined
1 bits c0 = noted yes
0 inorder yes = quiet
0 next 0 = request 0 0 3
1 inorder no = quiet
0 next 0 = request 2 0 3
but
6 0 next 0 = request 2 0 3
8 0 next 0 = request 1 0 3

peer of low levels
3 12 abc abc abc abc
2 5 1 1024 64 0 4096 0
1 levels 7711 = quiet
0 join = joined
0 bits f0 = noted yes
0 unchoke = quiet
1 join = joined
1 bits 30 = noted yes
1 unchoke = quiet
1 next 0 = request 2 0 3
0 next 0 = request 0 0 3
1 next 0 = request 3 0 3
0 next 0 = request 1 0 3
1 next 0 = idle
but
7 1 next 0 = idle

unwanted by level
3 6 abc abc
1 5 1 1024 64 0 4096 0
0 join = joined
0 bits c0 = noted yes
0 unchoke = quiet
0 level 0 0 = quiet
0 next 0 = request 1 0 3
0 next 0 = idle
0 level 0 4 = quiet
0 next 0 = request 0 0 3
0 levels 00 = quiet
0 next 0 = nothing
but
4 0 next 0 = request 0 0 3
7 0 next 0 = idle

levels of none
3 7 abc abc a
1 5 1 1024 64 0 4096 0
0 levels 000 = quiet
0 join = joined
0 bits e0 = noted no
0 unchoke = quiet
0 next 0 = nothing
0 level 2 1 = quiet
0 next 0 = request 2 0 1
0 next 0 = idle
but
2 0 bits e0 = noted yes
6 0 next 0 = nothing

want after levels
3 12 abc abc abc abc
2 5 0 1024 64 0 4096 0
0 levels 7115 = quiet
0 join = joined
0 bits f0 = noted yes
0 unchoke = quiet
1 join = joined
1 bits 10 = noted yes
0 want 70 = quiet
0 next 0 = request 1 0 3
0 next 0 = request 2 0 3
0 level 0 3 = quiet
0 next 0 = request 3 0 3
0 next 0 = request 0 0 3
but
7 0 next 0 = request 3 0 3
10 0 next 0 = request 0 0 3

level before the bits
3 6 abc abc
1 5 1 1024 64 0 4096 0
0 join = joined
0 level 1 7 = quiet
0 bits c0 = noted yes
0 unchoke = quiet
0 next 0 = request 1 0 3
0 next 0 = request 0 0 3
but
2 0 bits c0 = refused LateBits
4 0 next 0 = request 0 0 3

endgame of all levels
3 6 abc abc
3 5 1 1024 64 0 4096 0
2 levels 71 = quiet
0 join = joined
0 bits c0 = noted yes
0 unchoke = quiet
1 join = joined
1 bits c0 = noted yes
1 unchoke = quiet
2 join = joined
2 bits c0 = noted yes
2 unchoke = quiet
0 next 0 = request 0 0 3
1 next 0 = request 1 0 3
2 next 0 = request 1 0 3
2 next 0 = request 0 0 3
but
11 1 next 0 = request 0 0 3

asked outlasts its level
3 6 abc abc
1 5 1 1024 64 0 4096 0
0 join = joined
0 bits c0 = noted yes
0 unchoke = quiet
0 next 0 = request 0 0 3
0 level 0 0 = quiet
0 block 0 0 abc = completed
0 settle 0 abc = had
0 next 0 = request 1 0 3
but
5 0 block 0 0 abc = dropped

refusals of levels
3 7 abc abc a
2 5 1 1024 64 0 4096 0
0 level 3 4 = refused NoSuchPiece
0 level 0 8 = refused WrongLevel
0 level 9 9 = refused NoSuchPiece
1 levels 44 = refused WrongCount
1 levels 4444 = refused WrongCount
1 levels 484 = refused WrongLevel
1 levels 88 = refused WrongCount
1 levels 470 = quiet
1 level 2 7 = quiet
0 inorder yes = quiet
0 inorder no = quiet
0 join = joined
0 bits e0 = noted yes
0 unchoke = quiet
0 next 0 = request 2 0 1
0 next 0 = request 1 0 3
0 next 0 = request 0 0 3
but
0 0 level 3 4 = quiet
1 0 level 0 8 = quiet
3 1 levels 44 = quiet
5 1 levels 484 = quiet
6 1 levels 88 = refused WrongLevel
8 1 level 2 7 = refused NotJoined
9 0 inorder yes = refused NotJoined

any begun piece goes on
32768 131072 abc abc abc abc
3 5 0 1024 64 0 4096 0
0 join = joined
0 bits f0 = noted yes
0 unchoke = quiet
1 join = joined
1 bits 80 = noted yes
1 unchoke = quiet
2 join = joined
2 bits c0 = noted yes
2 unchoke = quiet
2 next 1 = request 1 0 16384
1 next 0 = request 0 0 16384
0 next 2 = request 0 16384 16384
0 next 2 = request 1 16384 16384
but
11 0 next 2 = request 2 0 16384

rarest while few are open
32768 131072 abc abc abc abc
2 5 0 1024 64 1 4096 0
0 join = joined
0 bits f0 = noted yes
0 unchoke = quiet
1 join = joined
1 bits c0 = noted yes
1 unchoke = quiet
1 next 0 = request 0 0 16384
0 next 2 = request 2 0 16384
0 next 3 = request 2 16384 16384
1 next 1 = request 0 16384 16384
but
7 0 next 2 = request 0 16384 16384
8 0 next 3 = request 3 0 16384
8 0 next 3 = request 0 16384 16384
9 1 next 1 = request 1 0 16384

as many open as may be
32768 131072 abc abc abc abc
3 5 0 1024 64 2 4096 0
0 join = joined
0 bits f0 = noted yes
0 unchoke = quiet
1 join = joined
1 bits 80 = noted yes
1 unchoke = quiet
2 join = joined
2 bits c0 = noted yes
2 unchoke = quiet
2 next 1 = request 1 0 16384
1 next 0 = request 0 0 16384
0 next 2 = request 2 0 16384
0 next 3 = request 2 16384 16384
but
11 0 next 2 = request 1 16384 16384
12 0 next 3 = request 3 0 16384

rarest of the open goes on
32768 131072 abc abc abc abc
3 5 0 1024 64 1 4096 0
0 join = joined
0 bits f0 = noted yes
0 unchoke = quiet
1 join = joined
1 bits 80 = noted yes
1 unchoke = quiet
2 join = joined
2 bits c0 = noted yes
2 unchoke = quiet
2 next 1 = request 1 0 16384
1 next 0 = request 0 0 16384
0 next 2 = request 1 16384 16384
0 next 2 = request 2 0 16384
but
11 0 next 2 = request 0 16384 16384
11 0 next 2 = request 2 0 16384
12 0 next 2 = request 0 16384 16384

first piece before rarity
32768 131072 abc abc abc abc
2 5 1 1024 64 8 4096 0
0 join = joined
0 bits f0 = noted yes
0 unchoke = quiet
1 join = joined
1 bits 80 = noted yes
0 next 0 = request 0 0 16384
0 next 0 = request 0 16384 16384
0 next 1 = request 1 0 16384
but
6 0 next 0 = request 1 0 16384

rarest of the begun at random
32768 131072 abc abc abc abc
3 5 2 1024 64 8 4096 0
0 join = joined
0 bits f0 = noted yes
0 unchoke = quiet
1 join = joined
1 bits 80 = noted yes
1 unchoke = quiet
2 join = joined
2 bits c0 = noted yes
2 unchoke = quiet
2 next 1 = request 1 0 16384
1 next 0 = request 0 0 16384
0 next 3 = request 1 16384 16384
0 next 3 = request 0 16384 16384
0 next 3 = request 3 0 16384
but
11 0 next 3 = request 0 16384 16384
11 0 next 3 = request 3 0 16384

rarest once enough are had
32768 65537 abc abc a
2 5 1 1024 64 8 4096 0
0 join = joined
0 bits e0 = noted yes
0 unchoke = quiet
1 join = joined
1 bits 80 = noted yes
1 unchoke = quiet
0 next 2 = request 2 0 1
1 next 0 = request 0 0 16384
0 block 2 0 a = completed
0 settle 2 a = had
0 next 0 = request 1 0 16384
but
8 0 next 0 = request 1 0 16384
10 0 next 0 = request 0 16384 16384

open counted over all levels
32768 131072 abc abc abc abc
2 5 0 1024 64 1 4096 0
0 join = joined
0 bits f0 = noted yes
0 unchoke = quiet
1 join = joined
1 bits 90 = noted yes
1 unchoke = quiet
1 next 0 = request 0 0 16384
0 next 2 = request 2 0 16384
0 level 3 5 = quiet
1 next 0 = request 3 0 16384
0 level 1 5 = quiet
0 next 0 = request 3 16384 16384
but
11 0 next 0 = request 1 0 16384

wholly requested pieces are not open
32768 131072 abc abc abc abc
2 5 0 1024 64 1 4096 0
0 join = joined
0 bits f0 = noted yes
0 unchoke = quiet
1 join = joined
1 bits c0 = noted yes
1 unchoke = quiet
1 next 0 = request 0 0 16384
1 next 1 = request 0 16384 16384
1 next 1 = request 1 0 16384
0 next 2 = request 2 0 16384
but
9 0 next 2 = request 1 16384 16384

released block opens its piece
32768 131072 abc abc abc abc
2 5 0 1024 64 1 4096 0
0 join = joined
0 bits f0 = noted yes
0 unchoke = quiet
1 join = joined
1 bits c0 = noted yes
1 unchoke = quiet
1 next 0 = request 0 0 16384
1 next 1 = request 0 16384 16384
1 next 1 = request 1 0 16384
1 release 0 16384 = quiet
0 next 2 = request 0 16384 16384
but
10 0 next 2 = request 2 0 16384

held block opens its piece
32768 131072 abc abc abc abc
2 5 0 1024 64 1 4096 0
0 join = joined
0 bits f0 = noted yes
0 unchoke = quiet
1 join = joined
1 bits c0 = noted yes
1 unchoke = quiet
1 next 1 = request 1 0 16384
1 block 0 0 whole = stored
0 next 2 = request 0 16384 16384
but
8 0 next 2 = request 2 0 16384

held pieces are not open
32768 131072 abc abc abc abc
2 5 0 1024 64 1 4096 0
0 join = joined
0 bits f0 = noted yes
0 unchoke = quiet
1 join = joined
1 bits c0 = noted yes
1 unchoke = quiet
1 block 0 0 whole = stored
1 block 0 16384 whole = completed
1 next 1 = request 1 0 16384
0 next 2 = request 2 0 16384
but
9 0 next 2 = request 1 16384 16384

unwanted pieces are not open
32768 131072 abc abc abc abc
3 5 0 1024 64 1 4096 0
0 join = joined
0 bits f0 = noted yes
0 unchoke = quiet
1 join = joined
1 bits 80 = noted yes
1 unchoke = quiet
2 join = joined
2 bits c0 = noted yes
2 unchoke = quiet
2 next 1 = request 1 0 16384
1 next 0 = request 0 0 16384
1 level 0 0 = quiet
0 next 2 = request 2 0 16384
but
12 0 next 2 = request 1 16384 16384

none of the open is shown
32768 131072 abc abc abc abc
4 5 0 1024 64 1 4096 0
0 join = joined
0 bits 80 = noted yes
0 unchoke = quiet
1 join = joined
1 bits c0 = noted yes
1 unchoke = quiet
2 join = joined
2 bits 30 = noted yes
2 unchoke = quiet
3 join = joined
3 bits 10 = noted yes
1 next 1 = request 1 0 16384
0 next 0 = request 0 0 16384
2 next 3 = request 2 0 16384
but
13 2 next 3 = request 3 0 16384
13 2 next 3 = idle

in order however many are open
32768 131072 abc abc abc abc
2 5 0 1024 64 1 4096 0
0 join = joined
0 bits f0 = noted yes
0 unchoke = quiet
1 join = joined
1 bits 30 = noted yes
1 unchoke = quiet
1 next 2 = request 2 0 16384
0 next 1 = request 1 0 16384
0 inorder yes = quiet
0 next 3 = request 0 0 16384
0 next 3 = request 0 16384 16384
0 next 3 = request 1 16384 16384
but
9 0 next 3 = request 1 16384 16384

endgame at few
3 6 abc abc
2 5 1 1024 64 0 1 0
0 join = joined
0 bits c0 = noted yes
0 unchoke = quiet
1 join = joined
1 bits c0 = noted yes
1 unchoke = quiet
0 next 0 = request 0 0 3
0 next 0 = request 1 0 3
1 next 0 = request 0 0 3
1 next 0 = idle
0 block 0 0 abc = completed
1 next 0 = cancel 0 0 3
1 next 0 = request 1 0 3
but
8 1 next 0 = idle
9 1 next 0 = request 1 0 3

endgame at none
3 3 abc
2 5 1 1024 64 0 0 0
0 join = joined
0 bits 80 = noted yes
0 unchoke = quiet
1 join = joined
1 bits 80 = noted yes
1 unchoke = quiet
0 next 0 = request 0 0 3
1 next 0 = idle
0 release 0 0 = quiet
1 next 0 = request 0 0 3
but
7 1 next 0 = request 0 0 3

unshown piece holds up endgame
3 6 abc abc
2 5 1 1024 64 0 4096 0
0 join = joined
0 bits 80 = noted yes
0 unchoke = quiet
1 join = joined
1 bits 80 = noted yes
1 unchoke = quiet
0 next 0 = request 0 0 3
1 next 0 = idle
but
7 1 next 0 = request 0 0 3

endgame over what is shown
3 6 abc abc
2 5 1 1024 64 0 4096 1
0 join = joined
0 bits 80 = noted yes
0 unchoke = quiet
1 join = joined
1 bits 80 = noted yes
1 unchoke = quiet
0 next 0 = request 0 0 3
1 next 0 = request 0 0 3
but
7 1 next 0 = idle

shown piece holds up endgame
3 6 abc abc
3 5 1 1024 64 0 4096 1
0 join = joined
0 bits 80 = noted yes
0 unchoke = quiet
1 join = joined
1 bits 80 = noted yes
1 unchoke = quiet
2 join = joined
2 bits 40 = noted yes
0 next 0 = request 0 0 3
1 next 0 = idle
2 leave = quiet
1 next 0 = request 0 0 3
but
9 1 next 0 = request 0 0 3
11 1 next 0 = idle

lower level is awaited too
3 12 abc abc abc abc
3 5 1 1024 64 0 4096 1
2 levels 4710 = quiet
0 join = joined
0 bits c0 = noted yes
0 unchoke = quiet
1 join = joined
1 bits 80 = noted yes
1 unchoke = quiet
0 next 0 = request 1 0 3
1 next 0 = request 0 0 3
0 next 0 = request 0 0 3
2 join = joined
2 bits 30 = noted yes
1 have 1 = noted yes
1 next 0 = idle
2 unchoke = quiet
2 next 0 = request 2 0 3
1 next 0 = request 1 0 3
but
13 1 next 0 = request 1 0 3

slow peer gets low levels
3 12 abc abc abc abc
2 5 1 1024 64 0 4096 0
1 levels 7542 = quiet
0 join = joined
0 bits f0 = noted yes
0 unchoke = quiet
0 reach 4 = quiet
0 next 0 = request 2 0 3
0 next 0 = request 3 0 3
0 next 0 = idle
0 reach 5 = quiet
0 next 0 = request 1 0 3
0 reach 7 = quiet
0 next 0 = request 0 0 3
but
5 0 next 0 = request 0 0 3
7 0 next 0 = request 1 0 3
7 0 next 0 = nothing
9 0 next 0 = idle

reach in endgame
3 6 abc abc
3 5 1 1024 64 0 4096 0
2 levels 74 = quiet
0 join = joined
0 bits c0 = noted yes
0 unchoke = quiet
1 join = joined
1 bits c0 = noted yes
1 unchoke = quiet
1 reach 4 = quiet
0 next 0 = request 0 0 3
0 next 0 = request 1 0 3
1 next 0 = request 1 0 3
1 next 0 = idle
but
10 1 next 0 = request 0 0 3

reach goes with its peer
3 6 abc abc
1 5 1 1024 64 0 4096 0
0 join = joined
0 reach 3 = quiet
0 bits c0 = noted yes
0 unchoke = quiet
0 next 0 = idle
0 leave = quiet
0 join = joined
0 bits c0 = noted yes
0 unchoke = quiet
0 next 0 = request 0 0 3
but
4 0 next 0 = request 0 0 3
9 0 next 0 = idle

refusals of reach and order
3 7 abc abc a
2 5 1 1024 64 0 4096 0
0 reach 3 = refused NotJoined
0 reach 9 = refused NotJoined
0 join = joined
0 reach 8 = refused WrongLevel
0 reach 0 = quiet
0 reach 7 = quiet
1 inorderfrom 9 = refused WrongLevel
1 inorderfrom 8 = quiet
1 inorderfrom 0 = quiet
but
0 0 reach 3 = quiet
3 0 reach 8 = quiet
6 1 inorderfrom 9 = quiet
7 1 inorderfrom 8 = refused NotJoined

window comes in order
3 12 abc abc abc abc
2 5 0 1024 64 0 4096 0
1 inorderfrom 5 = quiet
0 levels 4455 = quiet
0 join = joined
0 bits f0 = noted yes
0 unchoke = quiet
1 join = joined
1 bits a0 = noted yes
0 next 0 = request 2 0 3
0 next 0 = request 3 0 3
0 next 0 = request 1 0 3
0 next 0 = request 0 0 3
but
7 0 next 0 = request 3 0 3
9 0 next 0 = request 0 0 3

window told anew
3 12 abc abc abc abc
2 5 0 1024 64 0 4096 0
0 join = joined
0 bits f0 = noted yes
0 unchoke = quiet
1 join = joined
1 bits c0 = noted yes
1 inorderfrom 5 = quiet
0 inorder yes = quiet
0 next 3 = request 0 0 3
0 inorderfrom 8 = quiet
0 next 3 = request 3 0 3
but
7 0 next 3 = request 3 0 3
9 0 next 3 = request 1 0 3

lacked is asked elsewhere
32768 65536 abc abc
2 3 1 1024 64 0 4096 0
0 join = joined
0 bits c0 = noted yes
0 unchoke = quiet
0 next 0 = request 0 0 16384
0 next 0 = request 0 16384 16384
0 next 0 = request 1 0 16384
0 next 0 = pipefull
0 lack 0 = noted yes
1 join = joined
1 bits c0 = noted yes
1 unchoke = quiet
1 next 0 = request 1 16384 16384
1 next 0 = request 0 0 16384
1 next 0 = request 0 16384 16384
0 next 0 = request 1 16384 16384
0 next 0 = idle
0 block 0 0 whole = stored
1 next 0 = cancel 0 0 16384
but
8 0 next 0 = request 0 0 16384
11 1 next 0 = request 0 0 16384
13 1 next 0 = idle
15 0 next 0 = request 0 0 16384

lack makes another piece rarest
3 7 abc abc a
3 5 0 1024 64 0 4096 0
0 join = joined
0 bits e0 = noted yes
0 unchoke = quiet
1 join = joined
1 bits c0 = noted yes
2 join = joined
2 bits 80 = noted yes
0 next 1 = request 2 0 1
1 lack 0 = noted yes
2 lack 0 = noted no
0 next 1 = request 0 0 3
but
10 0 next 1 = request 1 0 3

lack of the only piece
3 3 abc
1 5 1 1024 64 0 4096 0
0 join = joined
0 bits 80 = noted yes
0 unchoke = quiet
0 next 0 = request 0 0 3
0 lack 0 = noted no
0 next 0 = nothing
0 have 0 = noted yes
0 next 0 = request 0 0 3
but
4 0 lack 0 = noted yes
5 0 next 0 = idle
7 0 next 0 = nothing

cancel outlasts a lack
3 3 abc
3 5 1 1024 64 0 4096 0
0 join = joined
0 bits 80 = noted yes
0 unchoke = quiet
1 join = joined
1 bits 80 = noted yes
1 unchoke = quiet
0 next 0 = request 0 0 3
1 next 0 = request 0 0 3
2 join = joined
2 bits 80 = noted yes
2 unchoke = quiet
2 next 0 = request 0 0 3
1 lack 0 = noted no
0 block 0 0 abc = completed
2 lack 0 = noted no
1 next 0 = nothing
2 next 0 = cancel 0 0 3
2 next 0 = nothing
but
15 1 next 0 = cancel 0 0 3
16 2 next 0 = nothing

lack begins endgame
3 6 abc abc
3 5 1 1024 64 0 4096 1
0 join = joined
0 bits 80 = noted yes
0 unchoke = quiet
1 join = joined
1 bits 80 = noted yes
1 unchoke = quiet
2 join = joined
2 bits 40 = noted yes
0 next 0 = request 0 0 3
1 next 0 = idle
2 lack 1 = noted no
1 next 0 = request 0 0 3
but
11 1 next 0 = idle

refusals of lack
3 7 abc abc a
2 5 1 1024 64 0 4096 0
0 lack 0 = refused NotJoined
0 lack 9 = refused NotJoined
0 join = joined
0 lack 3 = refused NoSuchPiece
0 bits 80 = noted yes
0 lack 2 = noted yes
1 join = joined
1 lack 2 = noted no
1 bits e0 = refused LateBits
but
0 0 lack 0 = noted no
3 0 lack 3 = noted no
4 0 bits 80 = refused LateBits
5 0 lack 2 = refused NoSuchPiece
8 1 bits e0 = noted yes

late comes after all
3 3 abc
2 5 1 1024 64 0 4096 0
0 join = joined
0 bits 80 = noted yes
0 unchoke = quiet
1 join = joined
1 bits 80 = noted yes
1 unchoke = quiet
0 next 0 = request 0 0 3
0 late 0 0 = quiet
1 next 0 = request 0 0 3
0 block 0 0 abc = completed
0 next 0 = idle
1 next 0 = cancel 0 0 3
but
10 0 next 0 = cancel 0 0 3
11 1 next 0 = idle

late at a lone peer
32768 65536 abc abc
1 5 1 1024 64 0 4096 0
0 join = joined
0 bits c0 = noted yes
0 unchoke = quiet
0 next 0 = request 0 0 16384
0 late 0 0 = quiet
0 next 0 = request 0 16384 16384
0 next 1 = request 1 0 16384
0 next 0 = request 1 16384 16384
0 next 0 = idle
0 block 0 0 whole = stored
but
5 0 next 0 = request 0 0 16384
6 0 next 1 = idle
6 0 next 1 = request 0 0 16384
9 0 block 0 0 whole = dropped

late stays in the pipe
32768 65536 abc abc
1 2 1 1024 64 0 4096 0
0 join = joined
0 bits c0 = noted yes
0 unchoke = quiet
0 next 0 = request 0 0 16384
0 next 0 = request 0 16384 16384
0 next 0 = pipefull
0 late 0 0 = quiet
0 late 0 16384 = quiet
0 next 0 = pipefull
0 release 0 0 = quiet
0 next 0 = request 0 0 16384
but
8 0 next 0 = request 1 0 16384
10 0 next 0 = pipefull

released once late
3 3 abc
1 5 1 1024 64 0 4096 0
0 join = joined
0 bits 80 = noted yes
0 unchoke = quiet
0 next 0 = request 0 0 3
0 late 0 0 = quiet
0 next 0 = idle
0 release 0 0 = quiet
0 next 0 = request 0 0 3
but
5 0 next 0 = request 0 0 3
7 0 next 0 = idle

spent piece is passed by
3 7 abc abc a
3 5 0 1024 64 0 4096 0
0 join = joined
0 bits e0 = noted yes
0 unchoke = quiet
1 join = joined
1 bits 60 = noted yes
1 unchoke = quiet
0 next 0 = request 0 0 3
0 late 0 0 = quiet
0 next 1 = request 1 0 3
2 join = joined
2 bits a0 = noted yes
2 unchoke = quiet
2 next 2 = request 0 0 3
but
8 0 next 1 = idle
8 0 next 1 = request 0 0 3
12 2 next 2 = request 2 0 1

spent open piece is passed by
32768 131072 abc abc abc abc
2 5 0 1024 64 1 4096 0
0 join = joined
0 bits f0 = noted yes
0 unchoke = quiet
1 join = joined
1 bits 70 = noted yes
1 unchoke = quiet
0 next 0 = request 0 0 16384
0 late 0 0 = quiet
0 next 0 = request 0 16384 16384
0 next 2 = request 2 0 16384
0 next 3 = request 2 16384 16384
but
8 0 next 0 = request 1 0 16384
10 0 next 3 = request 3 0 16384

refusals of late
3 7 abc abc a
2 5 1 1024 64 0 4096 0
0 late 0 0 = refused NotJoined
0 join = joined
0 late 0 0 = refused NotAsked
0 bits e0 = noted yes
0 unchoke = quiet
0 next 0 = request 0 0 3
0 late 0 1 = refused NotAsked
0 late 9 0 = refused NotAsked
1 join = joined
1 bits 80 = noted yes
1 unchoke = quiet
1 late 0 0 = refused NotAsked
0 late 0 0 = quiet
0 late 0 0 = quiet
0 release 0 0 = quiet
0 late 0 0 = refused NotAsked
but
0 0 late 0 0 = quiet
2 0 late 0 0 = quiet
3 0 bits e0 = refused LateBits
6 0 late 0 1 = quiet
7 0 late 9 0 = refused NoSuchPiece
11 1 late 0 0 = quiet
15 0 late 0 0 = quiet

alone begins its own
32768 65536 abc abc
2 5 1 1024 64 0 4096 0
0 join = joined
0 bits c0 = noted yes
0 unchoke = quiet
1 join = joined
1 bits c0 = noted yes
1 unchoke = quiet
0 next 0 = request 0 0 16384
1 alone yes = quiet
1 next 0 = request 1 0 16384
0 next 0 = request 0 16384 16384
0 next 0 = idle
1 next 0 = request 1 16384 16384
0 next 0 = request 1 0 16384
but
8 1 next 0 = request 0 16384 16384
10 0 next 0 = request 1 16384 16384
12 0 next 0 = idle

alone told off
32768 65536 abc abc
2 5 1 1024 64 0 4096 0
0 join = joined
0 bits c0 = noted yes
0 unchoke = quiet
1 join = joined
1 bits c0 = noted yes
1 unchoke = quiet
1 alone yes = quiet
1 next 0 = request 0 0 16384
0 next 0 = request 1 0 16384
0 next 0 = request 1 16384 16384
0 next 0 = idle
1 alone no = quiet
0 next 0 = request 0 16384 16384
but
8 0 next 0 = request 0 16384 16384
12 0 next 0 = idle

choke shares its pieces
32768 65536 abc abc
2 5 1 1024 64 0 4096 0
0 join = joined
0 bits c0 = noted yes
0 unchoke = quiet
1 join = joined
1 bits c0 = noted yes
1 unchoke = quiet
1 alone yes = quiet
1 next 0 = request 0 0 16384
1 block 0 0 whole = stored
0 next 0 = request 1 0 16384
0 next 0 = request 1 16384 16384
0 next 0 = idle
1 choke = quiet
0 next 0 = request 0 16384 16384
but
11 0 next 0 = request 0 16384 16384
13 0 next 0 = idle

another brings a block of its own
32768 65536 abc abc
2 5 1 1024 64 0 4096 0
0 join = joined
0 bits c0 = noted yes
0 unchoke = quiet
1 join = joined
1 bits c0 = noted yes
1 unchoke = quiet
0 next 0 = request 0 0 16384
0 release 0 0 = quiet
1 alone yes = quiet
1 next 0 = request 0 0 16384
0 block 0 0 whole = stored
1 next 0 = cancel 0 0 16384
1 next 0 = request 1 0 16384
0 next 0 = request 0 16384 16384
but
12 1 next 0 = request 0 16384 16384
13 0 next 0 = idle

alone goes with its peer
32768 65536 abc abc
2 5 1 1024 64 0 4096 0
0 join = joined
0 alone yes = quiet
0 leave = quiet
0 join = joined
0 bits c0 = noted yes
0 unchoke = quiet
1 join = joined
1 bits c0 = noted yes
1 unchoke = quiet
1 next 0 = request 0 0 16384
0 next 0 = request 0 16384 16384
but
10 0 next 0 = request 1 0 16384

alone in order
32768 65536 abc abc
2 5 1 1024 64 0 4096 0
0 inorder yes = quiet
0 join = joined
0 bits c0 = noted yes
0 unchoke = quiet
1 join = joined
1 bits c0 = noted yes
1 unchoke = quiet
1 alone yes = quiet
1 next 0 = request 0 0 16384
0 next 0 = request 1 0 16384
1 next 0 = request 0 16384 16384
but
9 0 next 0 = request 0 16384 16384

two work alone
32768 65536 abc abc
2 5 1 1024 64 0 4096 0
0 join = joined
0 bits c0 = noted yes
0 unchoke = quiet
1 join = joined
1 bits c0 = noted yes
1 unchoke = quiet
0 alone yes = quiet
1 alone yes = quiet
0 next 0 = request 0 0 16384
1 next 0 = request 1 0 16384
0 next 0 = request 0 16384 16384
0 next 0 = idle
1 next 0 = request 1 16384 16384
0 next 0 = request 1 0 16384
but
11 0 next 0 = request 1 16384 16384

refusals of alone
32768 65536 abc abc
1 5 1 1024 64 0 4096 0
0 alone yes = refused NotJoined
0 join = joined
0 alone yes = quiet
0 alone yes = quiet
0 alone no = quiet
0 bits c0 = noted yes
but
0 0 alone yes = quiet
5 0 bits c0 = refused LateBits";
