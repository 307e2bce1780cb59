//! Lawful traces, each the whole trace of a run or its first turns.

/// The trace of a run.
#[derive(Clone, Copy, Debug)]
pub enum Shown {
    Absent,
    BothRecover,
    CalledBack,
    Evicted,
    Expired,
    Glimpse,
    KnownName,
    OneClient,
    Reordered,
    ReplyLost,
    Resent,
    Twice,
    Unlinked,
    Written,
}

impl Shown {
    /// Its text.
    pub fn text(self) -> &'static [u8] {
        match self {
            Shown::Absent => ABSENT,
            Shown::BothRecover => BOTH_RECOVER,
            Shown::CalledBack => CALLED_BACK,
            Shown::Evicted => EVICTED,
            Shown::Expired => EXPIRED,
            Shown::Glimpse => GLIMPSE,
            Shown::KnownName => KNOWN_NAME,
            Shown::OneClient => ONE_CLIENT,
            Shown::Reordered => REORDERED,
            Shown::ReplyLost => REPLY_LOST,
            Shown::Resent => RESENT,
            Shown::Twice => TWICE,
            Shown::Unlinked => UNLINKED,
            Shown::Written => WRITTEN,
        }
    }
}

/// A client makes a directory twice, looks for another and removes the first.
const ONE_CLIENT: &[u8] = b"1 c0 begin 0 mkdir /a
1 c0 send 1 t0 req c0.1 1 1 mkdir /a
2 t0 take 1
2 t0 txn 1.1 c0.1 1 - ok 1.1
2 t0 send 2 c0 reply c0.1 1 1 1.1 0.0 - 2:t0 - ok 1.1
3 c0 take 2
3 c0 heard t0 1
3 c0 told 0 2:t0 ok 1.1
4 c0 begin 0 mkdir /a
4 c0 send 3 t0 req c0.1 1 2 mkdir /a
5 t0 take 3
5 t0 act c0.1 2 EEXIST
5 t0 send 4 c0 reply c0.1 1 2 0.0 0.0 1.1 5:t0 - EEXIST
6 c0 take 4
6 c0 heard t0 2
6 c0 told 0 5:t0 EEXIST
7 c0 begin 0 lookup /b
7 c0 send 5 t0 req c0.1 1 3 lookup /b
8 t0 take 5
8 t0 act c0.1 3 ENOENT
8 t0 send 6 c0 reply c0.1 1 3 0.0 0.0 - 8:t0 - ENOENT
9 c0 take 6
9 c0 heard t0 3
9 c0 told 0 8:t0 ENOENT
10 c0 begin 0 rmdir /a
10 c0 send 7 t0 req c0.1 1 4 rmdir /a
11 t0 take 7
11 t0 txn 1.2 c0.1 4 1.1 ok
11 t0 send 8 c0 reply c0.1 1 4 1.2 0.0 1.1 11:t0 - ok
12 c0 take 8
12 c0 heard t0 4
12 c0 told 0 11:t0 ok
end
";

/// A request is sent again, since its reply was lost: the kept reply comes.
const RESENT: &[u8] = b"1 c0 begin 0 mkdir /a
1 c0 send 1 t0 req c0.1 1 1 mkdir /a
2 t0 take 1
2 t0 txn 1.1 c0.1 1 - ok 1.1
2 t0 send 2 c0 reply c0.1 1 1 1.1 0.0 - 2:t0 - ok 1.1
3 t0 take 1
3 t0 send 3 c0 reply c0.1 1 1 1.1 0.0 - 2:t0 - ok 1.1
4 c0 tick
4 c0 send 4 t0 req c0.1 1 1 mkdir /a
5 t0 take 4
5 t0 send 5 c0 reply c0.1 1 1 1.1 0.0 - 2:t0 - ok 1.1
6 c0 take 5
6 c0 heard t0 1
6 c0 told 0 2:t0 ok 1.1
end
";

/// Two clients make one directory; the later request comes first.
const REORDERED: &[u8] = b"1 c0 begin 0 mkdir /a
1 c0 send 1 t0 req c0.1 1 1 mkdir /a
2 c1 begin 0 mkdir /a
2 c1 send 2 t0 req c1.1 1 1 mkdir /a
3 t0 take 2
3 t0 txn 1.1 c1.1 1 - ok 1.1
3 t0 send 3 c1 reply c1.1 1 1 1.1 0.0 - 3:t0 - ok 1.1
4 t0 take 1
4 t0 act c0.1 1 EEXIST
4 t0 send 4 c0 reply c0.1 1 1 0.0 0.0 1.1 4:t0 - EEXIST
5 c1 take 3
5 c1 heard t0 1
5 c1 told 0 3:t0 ok 1.1
6 c0 take 4
6 c0 heard t0 1
6 c0 told 0 4:t0 EEXIST
end
";

/// A name that was looked up is known: the second lookup asks nobody.
const KNOWN_NAME: &[u8] = b"1 c0 begin 0 mkdir /a
1 c0 send 1 t0 req c0.1 1 1 mkdir /a
2 t0 take 1
2 t0 txn 1.1 c0.1 1 - ok 1.1
2 t0 send 2 c0 reply c0.1 1 1 1.1 0.0 - 2:t0 - ok 1.1
3 c0 take 2
3 c0 heard t0 1
3 c0 told 0 2:t0 ok 1.1
4 c0 begin 0 lookup /a
4 c0 send 3 t0 req c0.1 1 2 lookup /a
5 t0 take 3
5 t0 act c0.1 2 dir 1.1
5 t0 grant 1.1 c0.1 1.1 PR 1
5 t0 send 4 c0 reply c0.1 1 2 0.0 0.0 1.1 5:t0 1.1:1.1:1 dir 1.1
6 c0 take 4
6 c0 heard t0 2
6 c0 hold t0 1.1
6 c0 told 0 5:t0 dir 1.1
7 c0 begin 0 lookup /a
7 c0 told 0 7:c0 dir 1.1
end
";

/// A lock on a directory is called back, since another client removes it.
const CALLED_BACK: &[u8] = b"1 c0 begin 0 mkdir /a
1 c0 send 1 t0 req c0.1 1 1 mkdir /a
2 t0 take 1
2 t0 txn 1.1 c0.1 1 - ok 1.1
2 t0 send 2 c0 reply c0.1 1 1 1.1 0.0 - 2:t0 - ok 1.1
3 c0 take 2
3 c0 heard t0 1
3 c0 told 0 2:t0 ok 1.1
4 c1 begin 0 lookup /a
4 c1 send 3 t0 req c1.1 1 1 lookup /a
5 t0 take 3
5 t0 act c1.1 1 dir 1.1
5 t0 grant 1.1 c1.1 1.1 PR 1
5 t0 send 4 c1 reply c1.1 1 1 0.0 0.0 1.1 5:t0 1.1:1.1:1 dir 1.1
6 c1 take 4
6 c1 heard t0 1
6 c1 hold t0 1.1
6 c1 told 0 5:t0 dir 1.1
7 c0 begin 0 rmdir /a
7 c0 send 5 t0 req c0.1 1 2 rmdir /a
8 t0 take 5
8 t0 block 1.1
8 t0 send 6 c1 block c1.1 1 1.1
9 c1 take 6
9 c1 drop t0 1.1
9 c1 send 7 t0 cancel c1.1 1 1.1
10 t0 take 7
10 t0 release 1.1
10 t0 txn 1.2 c0.1 2 1.1 ok
10 t0 send 8 c0 reply c0.1 1 2 1.2 0.0 1.1 10:t0 - ok
11 c0 take 8
11 c0 heard t0 2
11 c0 told 0 10:t0 ok
end
";

/// A client reads what another wrote, once the writer's bytes came and its lock was given back.
const WRITTEN: &[u8] = b"1 c0 begin 0 create /f 1048576 1
1 c0 send 1 t0 req c0.1 1 1 create /f 1048576 1
2 t0 take 1
2 t0 txn 1.1 c0.1 1 - ok 1.1
2 t0 send 2 c0 reply c0.1 1 1 1.1 0.0 - 2:t0 - ok 1.1
3 c0 take 2
3 c0 heard t0 1
3 c0 told 0 2:t0 ok 1.1
4 c0 begin 0 open 0 /f
4 c0 send 3 t0 req c0.1 1 2 open /f
5 t0 take 3
5 t0 txn 1.2 c0.1 2 1.1 open 1.1 1.2 1048576:1
5 t0 send 4 c0 reply c0.1 1 2 1.2 0.0 1.1 5:t0 - open 1.1 1.2 1048576:1
6 c0 take 4
6 c0 heard t0 2
6 c0 told 0 5:t0 ok 1.1
7 c1 begin 0 open 0 /f
7 c1 send 5 t0 req c1.1 1 1 open /f
8 t0 take 5
8 t0 txn 1.3 c1.1 1 1.1 open 1.1 1.3 1048576:1
8 t0 send 6 c1 reply c1.1 1 1 1.3 0.0 1.1 8:t0 - open 1.1 1.3 1048576:1
9 c1 take 6
9 c1 heard t0 1
9 c1 told 0 8:t0 ok 1.1
10 c0 begin 0 write 0 0 6869
10 c0 send 7 t1 req c0.1 1 1 enqueue 1.1/0 PW 0-1
11 t1 take 7
11 t1 grant 1.1 c0.1 1.1/0 PW 0-end
11 t1 send 8 c0 reply c0.1 1 1 0.0 0.0 - 11:t1 - granted 1.1 0-end 0
12 c0 take 8
12 c0 heard t1 1
12 c0 hold t1 1.1
12 c0 told 0 12:c0 ok
13 c1 begin 0 read 0 0 8
13 c1 send 9 t1 req c1.1 1 1 enqueue 1.1/0 PR 0-7
14 t1 take 9
14 t1 wait 1.2 c1.1 1.1/0 PR 0-7
14 t1 send 10 c1 reply c1.1 1 1 0.0 0.0 - 14:t1 - waiting 1.2
14 t1 block 1.1
14 t1 send 11 c0 block c0.1 1 1.1
15 c1 take 10
15 c1 heard t1 1
16 c0 take 11
16 c0 send 12 t1 req c0.1 1 2 put 1.1/0 1.1 0 6869
17 t1 take 12
17 t1 txn 1.1 c0.1 2 - ok
17 t1 send 13 c0 reply c0.1 1 2 1.1 0.0 - 17:t1 - ok
18 c0 take 13
18 c0 heard t1 2
18 c0 drop t1 1.1
18 c0 send 14 t1 cancel c0.1 1 1.1
19 t1 take 14
19 t1 release 1.1
19 t1 grant 1.2 c1.1 1.1/0 PR 0-end
19 t1 send 15 c1 grant c1.1 1 1.2 0-end 2 0.0 1.1
20 c1 take 15
20 c1 hold t1 1.2
20 c1 send 16 t1 req c1.1 1 2 get 1.1/0 1.2 0
21 t1 take 16
21 t1 send 17 c1 reply c1.1 1 2 0.0 0.0 1.1 21:t1 - content 6869
22 c1 take 17
22 c1 heard t1 2
22 c1 told 0 22:c1 content 6869
end
";

/// A glimpse asks the holder of a lock for the size.
const GLIMPSE: &[u8] = b"1 c0 begin 0 create /f 1048576 1
1 c0 send 1 t0 req c0.1 1 1 create /f 1048576 1
2 t0 take 1
2 t0 txn 1.1 c0.1 1 - ok 1.1
2 t0 send 2 c0 reply c0.1 1 1 1.1 0.0 - 2:t0 - ok 1.1
3 c0 take 2
3 c0 heard t0 1
3 c0 told 0 2:t0 ok 1.1
4 c0 begin 0 open 0 /f
4 c0 send 3 t0 req c0.1 1 2 open /f
5 t0 take 3
5 t0 txn 1.2 c0.1 2 1.1 open 1.1 1.2 1048576:1
5 t0 send 4 c0 reply c0.1 1 2 1.2 0.0 1.1 5:t0 - open 1.1 1.2 1048576:1
6 c0 take 4
6 c0 heard t0 2
6 c0 told 0 5:t0 ok 1.1
7 c1 begin 0 open 0 /f
7 c1 send 5 t0 req c1.1 1 1 open /f
8 t0 take 5
8 t0 txn 1.3 c1.1 1 1.1 open 1.1 1.3 1048576:1
8 t0 send 6 c1 reply c1.1 1 1 1.3 0.0 1.1 8:t0 - open 1.1 1.3 1048576:1
9 c1 take 6
9 c1 heard t0 1
9 c1 told 0 8:t0 ok 1.1
10 c0 begin 0 write 0 0 6869
10 c0 send 7 t1 req c0.1 1 1 enqueue 1.1/0 PW 0-1
11 t1 take 7
11 t1 grant 1.1 c0.1 1.1/0 PW 0-end
11 t1 send 8 c0 reply c0.1 1 1 0.0 0.0 - 11:t1 - granted 1.1 0-end 0
12 c0 take 8
12 c0 heard t1 1
12 c0 hold t1 1.1
12 c0 told 0 12:c0 ok
13 c1 begin 0 glimpse 0
13 c1 send 9 t1 req c1.1 1 1 size 1.1/0
14 t1 take 9
14 t1 send 10 c0 ask c0.1 1 1.1 c1.1 1
15 c0 take 10
15 c0 peek t1 1.1 2
15 c0 send 11 t1 size c0.1 1 1.1 c1.1 1 2
16 t1 take 11
16 t1 send 12 c1 reply c1.1 1 1 0.0 0.0 - 15:c0 - size 2
17 c1 take 12
17 c1 heard t1 1
17 c1 told 0 17:c1 sizes 2
end
";

/// An open file is unlinked, read and closed.
const UNLINKED: &[u8] = b"1 c0 begin 0 create /f 1048576 1
1 c0 send 1 t0 req c0.1 1 1 create /f 1048576 1
2 t0 take 1
2 t0 txn 1.1 c0.1 1 - ok 1.1
2 t0 send 2 c0 reply c0.1 1 1 1.1 0.0 - 2:t0 - ok 1.1
3 c0 take 2
3 c0 heard t0 1
3 c0 told 0 2:t0 ok 1.1
4 c0 begin 0 open 0 /f
4 c0 send 3 t0 req c0.1 1 2 open /f
5 t0 take 3
5 t0 txn 1.2 c0.1 2 1.1 open 1.1 1.2 1048576:1
5 t0 send 4 c0 reply c0.1 1 2 1.2 0.0 1.1 5:t0 - open 1.1 1.2 1048576:1
6 c0 take 4
6 c0 heard t0 2
6 c0 told 0 5:t0 ok 1.1
7 c0 begin 0 write 0 0 61
7 c0 send 5 t1 req c0.1 1 1 enqueue 1.1/0 PW 0-0
8 t1 take 5
8 t1 grant 1.1 c0.1 1.1/0 PW 0-end
8 t1 send 6 c0 reply c0.1 1 1 0.0 0.0 - 8:t1 - granted 1.1 0-end 0
9 c0 take 6
9 c0 heard t1 1
9 c0 hold t1 1.1
9 c0 told 0 9:c0 ok
10 c0 begin 0 unlink /f
10 c0 send 7 t0 req c0.1 1 3 unlink /f
11 t0 take 7
11 t0 txn 1.3 c0.1 3 1.1 ok
11 t0 send 8 c0 reply c0.1 1 3 1.3 0.0 1.1 11:t0 - ok
12 c0 take 8
12 c0 heard t0 3
12 c0 told 0 11:t0 ok
13 c0 begin 0 read 0 0 4
13 c0 told 0 13:c0 content 61
14 c0 begin 0 close 0
14 c0 send 9 t0 req c0.1 1 4 close 1.2 1.1
15 t0 take 9
15 t0 txn 1.4 c0.1 4 - ok
15 t0 send 10 c0 reply c0.1 1 4 1.4 0.0 - 15:t0 - ok
16 c0 take 10
16 c0 heard t0 4
16 c0 told 0 15:t0 ok
17 c0 begin 0 read 0 0 4
17 c0 told 0 17:c0 EBADF
18 c0 begin 0 lookup /f
18 c0 send 11 t0 req c0.1 1 5 lookup /f
19 t0 take 11
19 t0 act c0.1 5 ENOENT
19 t0 send 12 c0 reply c0.1 1 5 0.0 0.0 1.1,1.3 19:t0 - ENOENT
20 c0 take 12
20 c0 heard t0 5
20 c0 told 0 19:t0 ENOENT
end
";

/// The first turns of a longer run: a client makes a directory in two slots at a time.
const TWICE: &[u8] = b"1 c1 begin 0 lookup /b/x
1 c1 send 1 t0 req c1.1 1 1 lookup /b/x
2 c0 begin 3 close 0
2 c0 told 3 2:c0 EBADF
3 c1 begin 2 mkdir /c
3 c1 send 2 t0 req c1.1 1 2/1 mkdir /c
4 c0 begin 3 cut 1 70000
4 c0 told 3 4:c0 EBADF
5 c1 begin 3 mkdir /c
5 c1 send 3 t0 req c1.1 1 3/2 mkdir /c
6 c2 begin 0 rmdir /a
6 c2 send 4 t0 req c2.1 1 1 rmdir /a
7 t0 take 1
7 t0 act c1.1 1 ENOENT
7 t0 send 5 c1 reply c1.1 1 1 0.0 0.0 - 7:t0 - ENOENT
8 c0 begin 3 create /f 65536 3
8 c0 send 6 t0 req c0.1 1 1 create /f 65536 3
9 c1 take 5
9 c1 heard t0 1
9 c1 told 0 7:t0 ENOENT
10 t0 take 2
10 t0 txn 1.1 c1.1 2 - ok 1.1
10 t0 send 7 c1 reply c1.1 1 2 1.1 0.0 - 10:t0 - ok 1.1
11 t0 take 3
11 t0 act c1.1 3 EEXIST
11 t0 send 8 c1 reply c1.1 1 3 0.0 0.0 1.1 11:t0 - EEXIST
12 t0 take 4
12 t0 act c2.1 1 ENOENT
12 t0 send 9 c2 reply c2.1 1 1 0.0 0.0 - 12:t0 - ENOENT
13 t0 take 6
13 t0 txn 1.2 c0.1 1 - ok 1.2
13 t0 send 10 c0 reply c0.1 1 1 1.2 0.0 - 13:t0 - ok 1.2
14 t0 tick
15 c1 take 7
15 c1 heard t0 2
15 c1 told 2 10:t0 ok 1.1
end 3
";

/// The first turns of a longer run: a client that is evicted is told so in two slots.
const EVICTED: &[u8] = b"1 t1 tick
2 c0 begin 2 chmod /f 700
2 c0 send 1 t0 req c0.1 1 1 chmod /f 700
3 t0 take 1
3 t0 act c0.1 1 ENOENT
3 t0 send 2 c0 reply c0.1 1 1 0.0 0.0 - 3:t0 - ENOENT
4 c0 take 2
4 c0 heard t0 1
4 c0 told 2 3:t0 ENOENT
5 t1 tick
6 t1 tick
7 t1 tick
8 t1 tick
9 c0 begin 2 read 0 0 9
9 c0 told 2 9:c0 EBADF
10 t0 tick
11 t0 tick
12 t1 tick
13 t1 tick
14 t1 tick
15 c0 begin 1 layout /b/f
15 c0 send 3 t0 req c0.1 1 2 layout /b/f
16 c0 busy 1
17 t0 skip
18 c0 busy 1
19 c0 busy 1
20 t0 take 3
20 t0 act c0.1 2 ENOENT
20 t0 send 4 c0 reply c0.1 1 2 0.0 0.0 - 20:t0 - ENOENT
21 t0 skip
22 c0 take 4
22 c0 heard t0 2
22 c0 told 1 20:t0 ENOENT
23 c0 begin 3 mkdir /a/b
23 c0 send 5 t0 req c0.1 1 3 mkdir /a/b
24 t0 take 5
24 t0 act c0.1 3 ENOENT
24 t0 send 6 c0 reply c0.1 1 3 0.0 0.0 - 24:t0 - ENOENT
25 c0 take 6
25 c0 heard t0 3
25 c0 told 3 24:t0 ENOENT
26 t0 crash
27 t0 boot 2
27 t0 send 7 c0 up 2
28 c0 begin 2 unlink /g
28 c0 send 8 t0 req c0.1 1 4 unlink /g
29 c0 take 7
29 c0 send 9 t0 word c0.1 2 0 0 -
30 t0 take 8
30 t0 send 10 c0 up 2
31 t1 tick
32 t1 tick
33 t0 close
33 t0 commit 0.0
33 t0 evict c0.1 absent
33 t0 send 11 c0 evicted c0.1 2
34 t0 take 9
34 t0 send 12 c0 evicted c0.1 2
35 c0 take 10
36 t0 crash
37 c0 begin 1 mkdir /a/b
38 t0 boot 3
38 t0 close
38 t0 commit 0.0
39 c0 take 11
39 c0 told 1 39:c0 EIO
39 c0 told 2 39:c0 EIO
39 c0 life c0.2
39 c0 send 13 t0 join c0.2 2
39 c0 send 14 t1 join c0.2 1
end
";

/// A transaction whose reply was lost goes with a crash; the request is executed anew.
const REPLY_LOST: &[u8] = b"1 c0 begin 0 mkdir /a
1 c0 send 1 t0 req c0.1 1 1 mkdir /a
2 t0 take 1
2 t0 txn 1.1 c0.1 1 - ok 1.1
2 t0 send 2 c0 reply c0.1 1 1 1.1 0.0 - 2:t0 - ok 1.1
3 t0 crash
4 t0 boot 2
4 t0 send 3 c0 up 2
5 c0 take 3
5 c0 send 4 t0 word c0.1 2 0 0 -
6 t0 take 4
6 t0 back c0.1
6 t0 close
6 t0 commit 0.0
6 t0 send 5 c0 ready c0.1 2 0.0
7 c0 take 5
7 c0 send 6 t0 req c0.1 2 1 mkdir /a
8 t0 take 6
8 t0 txn 2.1 c0.1 1 - ok 2.1
8 t0 send 7 c0 reply c0.1 2 1 2.1 0.0 - 8:t0 - ok 2.1
9 c0 take 7
9 c0 heard t0 1
9 c0 told 0 8:t0 ok 2.1
end
";

/// Two clients hand in their transactions after a crash, and both are kept.
const BOTH_RECOVER: &[u8] = b"1 c0 begin 0 mkdir /a
1 c0 send 1 t0 req c0.1 1 1 mkdir /a
2 t0 take 1
2 t0 txn 1.1 c0.1 1 - ok 1.1
2 t0 send 2 c0 reply c0.1 1 1 1.1 0.0 - 2:t0 - ok 1.1
3 c0 take 2
3 c0 heard t0 1
3 c0 told 0 2:t0 ok 1.1
4 c1 begin 0 mkdir /b
4 c1 send 3 t0 req c1.1 1 1 mkdir /b
5 t0 take 3
5 t0 txn 1.2 c1.1 1 - ok 1.2
5 t0 send 4 c1 reply c1.1 1 1 1.2 0.0 - 5:t0 - ok 1.2
6 c1 take 4
6 c1 heard t0 1
6 c1 told 0 5:t0 ok 1.2
7 t0 crash
8 t0 boot 2
8 t0 send 5 c0 up 2
8 t0 send 6 c1 up 2
9 c0 take 5
9 c0 send 7 t0 replay c0.1 2 1.1 1 - mkdir /a
9 c0 send 8 t0 word c0.1 2 1 0 -
10 c1 take 6
10 c1 send 9 t0 replay c1.1 2 1.2 1 - mkdir /b
10 c1 send 10 t0 word c1.1 2 1 0 -
11 t0 take 7
12 t0 take 8
12 t0 back c0.1
13 t0 take 9
14 t0 take 10
14 t0 back c1.1
14 t0 close
14 t0 commit 1.2
14 t0 kept 1.1
14 t0 kept 1.2
14 t0 send 11 c0 ready c0.1 2 1.2
14 t0 send 12 c1 ready c1.1 2 1.2
15 c0 take 11
16 c1 take 12
17 c0 begin 0 list /
17 c0 send 13 t0 req c0.1 2 2 list /
18 t0 take 13
18 t0 act c0.1 2 names 2 a b
18 t0 grant 2.1 c0.1 0.1 PR 2
18 t0 send 14 c0 reply c0.1 2 2 0.0 1.2 - 18:t0 2.1:0.1:2 names 2 a b
19 c0 take 14
19 c0 heard t0 2
19 c0 hold t0 2.1
19 c0 told 0 18:t0 names 2 a b
end
";

/// After a crash a client is away, one saw what is lost with it, and one stays.
const ABSENT: &[u8] = b"1 c0 begin 0 mkdir /a
1 c0 send 1 t0 req c0.1 1 1 mkdir /a
2 t0 take 1
2 t0 txn 1.1 c0.1 1 - ok 1.1
2 t0 send 2 c0 reply c0.1 1 1 1.1 0.0 - 2:t0 - ok 1.1
3 c0 take 2
3 c0 heard t0 1
3 c0 told 0 2:t0 ok 1.1
4 c1 begin 0 lookup /a
4 c1 send 3 t0 req c1.1 1 1 lookup /a
5 c2 begin 0 mkdir /b
5 c2 send 4 t0 req c2.1 1 1 mkdir /b
6 t0 take 3
6 t0 act c1.1 1 dir 1.1
6 t0 grant 1.1 c1.1 1.1 PR 1
6 t0 send 5 c1 reply c1.1 1 1 0.0 0.0 1.1 6:t0 1.1:1.1:1 dir 1.1
7 t0 take 4
7 t0 txn 1.2 c2.1 1 - ok 1.2
7 t0 send 6 c2 reply c2.1 1 1 1.2 0.0 - 7:t0 - ok 1.2
8 c1 take 5
8 c1 heard t0 1
8 c1 hold t0 1.1
8 c1 told 0 6:t0 dir 1.1
9 c2 take 6
9 c2 heard t0 1
9 c2 told 0 7:t0 ok 1.2
10 c0 die
11 t0 crash
12 t0 boot 2
12 t0 send 7 c0 up 2
12 t0 send 8 c1 up 2
12 t0 send 9 c2 up 2
13 c1 take 8
13 c1 send 10 t0 lock c1.1 2 1.1 1.1 PR 1
13 c1 send 11 t0 word c1.1 2 0 1 1.1
14 c2 take 9
14 c2 send 12 t0 replay c2.1 2 1.2 1 - mkdir /b
14 c2 send 13 t0 word c2.1 2 1 0 -
15 t0 take 10
16 t0 take 11
16 t0 back c1.1
17 t0 take 12
18 t0 take 13
18 t0 back c2.1
19 t0 close
19 t0 commit 1.2
19 t0 kept 1.2
19 t0 evict c0.1 absent
19 t0 send 14 c0 evicted c0.1 2
19 t0 evict c1.1 gap
19 t0 send 15 c1 evicted c1.1 2
19 t0 send 16 c2 ready c2.1 2 1.2
20 c1 take 15
20 c1 drop t0 1.1
20 c1 life c1.2
20 c1 send 17 t0 join c1.2 2
20 c1 send 18 t1 join c1.2 1
21 c2 take 16
22 t0 take 17
22 t0 commit 1.2
22 t0 joined c1.2
22 t0 send 19 c1 ready c1.2 2 1.2
23 t1 take 18
23 t1 commit 0.0
23 t1 evict c1.1 replaced
23 t1 send 20 c1 evicted c1.1 1
23 t1 joined c1.2
23 t1 send 21 c1 ready c1.2 1 0.0
24 c1 take 19
25 c1 take 20
26 c1 take 21
end
";

/// The holder of a lock that is called back is evicted; the target crashes, and the next holder stays.
const EXPIRED: &[u8] = b"1 c0 begin 0 create /f 1048576 1
1 c0 send 1 t0 req c0.1 1 1 create /f 1048576 1
2 t0 take 1
2 t0 txn 1.1 c0.1 1 - ok 1.1
2 t0 send 2 c0 reply c0.1 1 1 1.1 0.0 - 2:t0 - ok 1.1
3 c0 take 2
3 c0 heard t0 1
3 c0 told 0 2:t0 ok 1.1
4 c0 begin 0 open 0 /f
4 c0 send 3 t0 req c0.1 1 2 open /f
5 t0 take 3
5 t0 txn 1.2 c0.1 2 1.1 open 1.1 1.2 1048576:1
5 t0 send 4 c0 reply c0.1 1 2 1.2 0.0 1.1 5:t0 - open 1.1 1.2 1048576:1
6 c0 take 4
6 c0 heard t0 2
6 c0 told 0 5:t0 ok 1.1
7 c1 begin 0 open 0 /f
7 c1 send 5 t0 req c1.1 1 1 open /f
8 t0 take 5
8 t0 txn 1.3 c1.1 1 1.1 open 1.1 1.3 1048576:1
8 t0 send 6 c1 reply c1.1 1 1 1.3 0.0 1.1 8:t0 - open 1.1 1.3 1048576:1
9 c1 take 6
9 c1 heard t0 1
9 c1 told 0 8:t0 ok 1.1
10 c0 begin 0 write 0 0 6869
10 c0 send 7 t1 req c0.1 1 1 enqueue 1.1/0 PW 0-1
11 t1 take 7
11 t1 grant 1.1 c0.1 1.1/0 PW 0-end
11 t1 send 8 c0 reply c0.1 1 1 0.0 0.0 - 11:t1 - granted 1.1 0-end 0
12 c0 take 8
12 c0 heard t1 1
12 c0 hold t1 1.1
12 c0 told 0 12:c0 ok
13 c1 begin 0 read 0 0 8
13 c1 send 9 t1 req c1.1 1 1 enqueue 1.1/0 PR 0-7
14 t1 take 9
14 t1 wait 1.2 c1.1 1.1/0 PR 0-7
14 t1 send 10 c1 reply c1.1 1 1 0.0 0.0 - 14:t1 - waiting 1.2
14 t1 block 1.1
14 t1 send 11 c0 block c0.1 1 1.1
15 t1 tick
15 t1 send 12 c0 block c0.1 1 1.1
16 t1 tick
16 t1 commit 0.0
16 t1 evict c0.1 expired
16 t1 send 13 c0 evicted c0.1 1
16 t1 release 1.1
16 t1 grant 1.2 c1.1 1.1/0 PR 0-end
16 t1 send 14 c1 grant c1.1 1 1.2 0-end 0 0.0 -
17 t1 crash
18 t1 boot 2
18 t1 send 15 c1 up 2
19 c1 take 10
19 c1 heard t1 1
20 c0 take 13
20 c0 drop t1 1.1
20 c0 life c0.2
20 c0 send 16 t0 join c0.2 1
20 c0 send 17 t1 join c0.2 1
21 c1 take 14
21 c1 hold t1 1.2
21 c1 told 0 21:c1 content -
22 c1 take 15
22 c1 send 18 t1 lock c1.1 2 1.2 1.1/0 PR 0-end
22 c1 send 19 t1 word c1.1 2 0 1 -
23 t0 take 16
23 t0 commit 1.3
23 t0 evict c0.1 replaced
23 t0 send 20 c0 evicted c0.1 1
23 t0 joined c0.2
23 t0 send 21 c0 ready c0.2 1 1.3
24 t1 take 17
24 t1 send 22 c0 up 2
25 t1 take 18
26 t1 take 19
26 t1 back c1.1
26 t1 close
26 t1 commit 0.0
26 t1 restore 1.2 c1.1 1.1/0 PR 0-end
26 t1 send 23 c1 ready c1.1 2 0.0
27 c0 take 20
28 c0 take 21
29 c0 take 22
29 c0 send 24 t1 join c0.2 2
30 c1 take 23
31 t1 take 24
31 t1 commit 0.0
31 t1 joined c0.2
31 t1 send 25 c0 ready c0.2 2 0.0
32 c0 take 25
end
";
