//! A scenario that several tests perform, and its trace.

/// The trace of a client that makes a directory twice, looks for another and removes the first.
pub const ONE_CLIENT: &[u8] = b"1 c0 begin 0 mkdir /a
1 c0 send 1 t0 req c0.1 1 1 mkdir /a
2 t0 take 1
2 t0 txn 1.1 c0.1 1 - ok 1.1
2 t0 send 2 c0 reply c0.1 1 1 1.1 0.0 - 2:t0 - ok 1.1
3 c0 take 2
3 c0 heard t0 1
3 c0 told 0 2:t0 ok 1.1
4 c0 begin 0 mkdir /a
4 c0 send 3 t0 req c0.1 1 2 mkdir /a
5 t0 take 3
5 t0 act c0.1 2 EEXIST
5 t0 send 4 c0 reply c0.1 1 2 0.0 0.0 1.1 5:t0 - EEXIST
6 c0 take 4
6 c0 heard t0 2
6 c0 told 0 5:t0 EEXIST
7 c0 begin 0 lookup /b
7 c0 send 5 t0 req c0.1 1 3 lookup /b
8 t0 take 5
8 t0 act c0.1 3 ENOENT
8 t0 send 6 c0 reply c0.1 1 3 0.0 0.0 - 8:t0 - ENOENT
9 c0 take 6
9 c0 heard t0 3
9 c0 told 0 8:t0 ENOENT
10 c0 begin 0 rmdir /a
10 c0 send 7 t0 req c0.1 1 4 rmdir /a
11 t0 take 7
11 t0 txn 1.2 c0.1 4 1.1 ok
11 t0 send 8 c0 reply c0.1 1 4 1.2 0.0 1.1 11:t0 - ok
12 c0 take 8
12 c0 heard t0 4
12 c0 told 0 11:t0 ok
end
";

/// Its scenario.
pub const ONE_CLIENT_SCENE: &[u8] = b"call 0.0 mkdir /a
run
call 0.0 mkdir /a
run
call 0.0 lookup /b
run
call 0.0 rmdir /a
run
";
