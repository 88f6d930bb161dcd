//! Numbers, blanks, remarks and versions in less usual spellings, with its tree in a short form. Written by checks/grammar.py.

pub const ROWS: &[(&[u8], &[u8])] = &[
    (
        b"FIRRTL version 1.1.0\ncircuit T : %[[{\"class\":\"x]\"}]]\n  ; a comment\n  module T :\n    input clock : Clock\n    input reset : UInt<1>\n    output io : { flip d : UInt<8>, q : UInt<8>}\n\n    reg q : UInt, clock with :\n      reset => (UInt<1>(\"h0\"), q) @[T.scala 9:14]\n    q <= io.d @[T.scala 10:5]\n    io.q <= q @[T.scala 11:8]\n",
        b"T@2:9{4:3 T@4:10(input clock@5:11:Clock@5:19,input reset@6:11:UInt<1>@6:19,output io@7:12:{~d@7:24:UInt<8>@7:28,q@7:37:UInt<8>@7:41}@7:17)[9:5 reg q@9:9:UInt@9:13,clock@9:19,reset@9:25(UInt@10:17<1>(0),q@10:32);11:5 q@11:5<=io@11:10.@11:12 d@11:13;12:5 io@12:5.@12:7 q@12:8<=q@12:13]}",
    ),
    (
        b"\n; nothing\nFIRRTL  version 1 . 1 . 0 @[x]\n\ncircuit T:\n  module M :\n",
        b"T@5:9{6:3 M@6:10()[]}",
    ),
    (
        b"circuit T :\n  module M :\n    node n = UInt(340282366920938463463374607431768211455)\n",
        b"T@1:9{2:3 M@2:10()[3:5 node n@3:10=UInt@3:14(340282366920938463463374607431768211455)]}",
    ),
    (
        b"circuit T :\n  module M :\n    node n = UInt(\"hffffffffffffffffffffffffffffffff\")\n",
        b"T@1:9{2:3 M@2:10()[3:5 node n@3:10=UInt@3:14(340282366920938463463374607431768211455)]}",
    ),
    (
        b"circuit T :\n  module M :\n    node n = UInt<0004>(007)\n",
        b"T@1:9{2:3 M@2:10()[3:5 node n@3:10=UInt@3:14<4>(7)]}",
    ),
    (
        b"circuit T :\n  module M :\n    node n = UInt(\"haBcD\")\n",
        b"T@1:9{2:3 M@2:10()[3:5 node n@3:10=UInt@3:14(43981)]}",
    ),
    (
        b"circuit T :\n  module M :\n    node n = UInt(\"h-0\")\n",
        b"T@1:9{2:3 M@2:10()[3:5 node n@3:10=UInt@3:14(0)]}",
    ),
    (
        b"circuit T :\n  module M :\n    node n = SInt(-1)\n",
        b"T@1:9{2:3 M@2:10()[3:5 node n@3:10=SInt@3:14(-1)]}",
    ),
    (
        b"circuit T :\n  module M :\n    node n = SInt(\"-h8\")\n",
        b"T@1:9{2:3 M@2:10()[3:5 node n@3:10=SInt@3:14(-8)]}",
    ),
    (
        b"circuit T :\n  module M :\n    node n = SInt(\"+h8\")\n",
        b"T@1:9{2:3 M@2:10()[3:5 node n@3:10=SInt@3:14(8)]}",
    ),
    (
        b"circuit T :\n  module M :\n    node n = SInt<340282366920938463463374607431768211455>(\"b-0\")\n",
        b"T@1:9{2:3 M@2:10()[3:5 node n@3:10=SInt@3:14<340282366920938463463374607431768211455>(0)]}",
    ),
];
