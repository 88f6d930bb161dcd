//! Each form of a text, a module, a type and a statement, with its tree in a short form. Written by checks/grammar.py.

pub const ROWS: &[(&[u8], &[u8])] = &[
    (b"circuit T :\n  module T :\n", b"T@1:9{2:3 T@2:10()[]}"),
    (
        b"circuit T :\n  module T :\n  module U :\n    skip\n",
        b"T@1:9{2:3 T@2:10()[] 3:3 U@3:10()[4:5 skip]}",
    ),
    (
        b"circuit T : %[[ {\"a\": 1} ]]\n  module T :\n",
        b"T@1:9{2:3 T@2:10()[]}",
    ),
    (
        b"FIRRTL version 1.1.0\ncircuit T :\n  module T :\n",
        b"T@2:9{3:3 T@3:10()[]}",
    ),
    (
        b"FIRRTL version 02.0.7\ncircuit circuit : @[x]\n  module module :\n    skip",
        b"circuit@2:9{3:3 module@3:10()[4:5 skip]}",
    ),
    (
        b"circuit T :\n  module M :\n    input a : UInt<4>\n",
        b"T@1:9{2:3 M@2:10(input a@3:11:UInt<4>@3:15)[]}",
    ),
    (
        b"circuit T :\n  module M :\n    output o : SInt<3>\n",
        b"T@1:9{2:3 M@2:10(output o@3:12:SInt<3>@3:16)[]}",
    ),
    (
        b"circuit T :\n  module M :\n    input c : Clock\n",
        b"T@1:9{2:3 M@2:10(input c@3:11:Clock@3:15)[]}",
    ),
    (
        b"circuit T :\n  module M :\n    input r : Reset\n",
        b"T@1:9{2:3 M@2:10(input r@3:11:Reset@3:15)[]}",
    ),
    (
        b"circuit T :\n  module M :\n    output r : AsyncReset\n",
        b"T@1:9{2:3 M@2:10(output r@3:12:AsyncReset@3:16)[]}",
    ),
    (
        b"circuit T :\n  module M :\n    input b : { a : UInt, flip b : SInt<2>[3] }\n",
        b"T@1:9{2:3 M@2:10(input b@3:11:{a@3:17:UInt@3:21,~b@3:32:SInt<2>[3]@3:36}@3:15)[]}",
    ),
    (
        b"circuit T :\n  module M :\n    input e : {}\n",
        b"T@1:9{2:3 M@2:10(input e@3:11:{}@3:15)[]}",
    ),
    (
        b"circuit T :\n  module M :\n    input v : SInt[2][0]\n",
        b"T@1:9{2:3 M@2:10(input v@3:11:SInt[2][0]@3:15)[]}",
    ),
    (
        b"circuit T :\n  module M :\n    input f : { flip : UInt<1>, 7 : Clock, flip 08 : Reset }\n",
        b"T@1:9{2:3 M@2:10(input f@3:11:{flip@3:17:UInt<1>@3:24,7@3:33:Clock@3:37,~08@3:49:Reset@3:54}@3:15)[]}",
    ),
    (
        b"circuit T :\n  module M :\n    input input : UInt<1>\n",
        b"T@1:9{2:3 M@2:10(input input@3:11:UInt<1>@3:19)[]}",
    ),
    (
        b"circuit T :\n  module M :\n    wire w : UInt<4>[2]\n",
        b"T@1:9{2:3 M@2:10()[3:5 wire w@3:10:UInt<4>[2]@3:14]}",
    ),
    (
        b"circuit T :\n  module M :\n    node n = a\n",
        b"T@1:9{2:3 M@2:10()[3:5 node n@3:10=a@3:14]}",
    ),
    (
        b"circuit T :\n  module M :\n    reg r : UInt<4>, clock\n",
        b"T@1:9{2:3 M@2:10()[3:5 reg r@3:9:UInt<4>@3:13,clock@3:22]}",
    ),
    (
        b"circuit T :\n  module M :\n    reg is : { a : UInt }, c.k with : (reset => (a, UInt<4>(0)))\n",
        b"T@1:9{2:3 M@2:10()[3:5 reg is@3:9:{a@3:16:UInt@3:20}@3:14,c@3:28.@3:29 k@3:30,reset@3:32(a@3:50,UInt@3:53<4>(0))]}",
    ),
    (
        b"circuit T :\n  module M :\n    inst i of N\n",
        b"T@1:9{2:3 M@2:10()[3:5 inst i@3:10 of N@3:15]}",
    ),
    (
        b"circuit T :\n  module M :\n    inst of of of\n",
        b"T@1:9{2:3 M@2:10()[3:5 inst of@3:10 of of@3:16]}",
    ),
    (
        b"circuit T :\n  module M :\n    mem m :\n",
        b"T@1:9{2:3 M@2:10()[3:5 mem m@3:9{}]}",
    ),
    (
        b"circuit T :\n  module M :\n    skip\n",
        b"T@1:9{2:3 M@2:10()[3:5 skip]}",
    ),
    (
        b"circuit T :\n  module M :\n    a <= b\n",
        b"T@1:9{2:3 M@2:10()[3:5 a@3:5<=b@3:10]}",
    ),
    (
        b"circuit T :\n  module M :\n    a.b <= c\n",
        b"T@1:9{2:3 M@2:10()[3:5 a@3:5.@3:6 b@3:7<=c@3:12]}",
    ),
    (
        b"circuit T :\n  module M :\n    a[i].x <- not(c)\n",
        b"T@1:9{2:3 M@2:10()[3:5 a@3:5[@3:6 i@3:7].@3:9 x@3:10<-not@3:15(c@3:19)]}",
    ),
    (
        b"circuit T :\n  module M :\n    a is invalid\n",
        b"T@1:9{2:3 M@2:10()[3:5 a@3:5 is invalid]}",
    ),
    (
        b"circuit T :\n  module M :\n    a.b[2] is invalid\n",
        b"T@1:9{2:3 M@2:10()[3:5 a@3:5.@3:6 b@3:7[@3:8 2@3:9] is invalid]}",
    ),
    (
        b"circuit T :\n  module M :\n    wire <= skip\n",
        b"T@1:9{2:3 M@2:10()[3:5 wire@3:5<=skip@3:13]}",
    ),
    (
        b"circuit T :\n  module M :\n    skip is invalid\n",
        b"T@1:9{2:3 M@2:10()[3:5 skip@3:5 is invalid]}",
    ),
    (
        b"circuit T :\n  module M :\n    is is invalid\n",
        b"T@1:9{2:3 M@2:10()[3:5 is@3:5 is invalid]}",
    ),
    (
        b"circuit T :\n  module M :\n    when a :\n",
        b"T@1:9{2:3 M@2:10()[3:5 when a@3:10[][]]}",
    ),
    (
        b"circuit T :\n  module M :\n    reg r : UInt<4>, clock with :\n      reset => (reset, a)\n    skip\n",
        b"T@1:9{2:3 M@2:10()[3:5 reg r@3:9:UInt<4>@3:13,clock@3:22,reset@3:28(reset@4:17,a@4:24);5:5 skip]}",
    ),
    (
        b"circuit T :\n  module M :\n    mem m :\n      data-type => UInt<8>[2]\n      depth => 016\n      read-latency => 0\n      write-latency => 1\n      reader => r s\n      writer => w\n      readwriter => rw\n      read-under-write => old\n",
        b"T@1:9{2:3 M@2:10()[3:5 mem m@3:9{4:7 data-type:UInt<8>[2]@4:20;5:7 depth 16;6:7 read-latency 0;7:7 write-latency 1;8:7 reader r@8:17 s@8:19;9:7 writer w@9:17;10:7 readwriter rw@10:21;11:7 read-under-write old}]}",
    ),
    (
        b"circuit T :\n  module M :\n    mem m :\n      read-under-write => new\n      read-under-write => undefined\n      depth => 1\n    skip\n",
        b"T@1:9{2:3 M@2:10()[3:5 mem m@3:9{4:7 read-under-write new;5:7 read-under-write undefined;6:7 depth 1};7:5 skip]}",
    ),
    (
        b"circuit T :\n  module M :\n    when a :\n      skip\n    else :\n      a <= b\n    skip\n",
        b"T@1:9{2:3 M@2:10()[3:5 when a@3:10[4:7 skip][6:7 a@6:7<=b@6:12];7:5 skip]}",
    ),
    (
        b"circuit T :\n  module M :\n    when a :\n      skip\n    else when b :\n      node n = c\n    else when d :\n    else :\n      skip\n    skip\n",
        b"T@1:9{2:3 M@2:10()[3:5 when a@3:10[4:7 skip][5:10 when b@5:15[6:7 node n@6:12=c@6:16][7:10 when d@7:15[][9:7 skip]]];10:5 skip]}",
    ),
    (
        b"circuit T :\n  module M :\n    when a :\n    else :\n    skip\n",
        b"T@1:9{2:3 M@2:10()[3:5 when a@3:10[][];5:5 skip]}",
    ),
    (
        b"circuit T :\n  module M :\n    when a :\n    else <= b\n",
        b"T@1:9{2:3 M@2:10()[3:5 when a@3:10[][];4:5 else@4:5<=b@4:13]}",
    ),
    (
        b"circuit T :\n  module M :\n    when a :\n      when b :\n        skip\n      else :\n        skip\n    else :\n      when c :\n        skip\n",
        b"T@1:9{2:3 M@2:10()[3:5 when a@3:10[4:7 when b@4:12[5:9 skip][7:9 skip]][9:7 when c@9:12[10:9 skip][]]]}",
    ),
    (
        b"circuit T :\n  module M :\n    when a :\n      wire w : Clock\n      inst i of N\n      mem m :\n        depth => 2\n      reg r : UInt, c\n      w is invalid\n",
        b"T@1:9{2:3 M@2:10()[3:5 when a@3:10[4:7 wire w@4:12:Clock@4:16;5:7 inst i@5:12 of N@5:17;6:7 mem m@6:11{7:9 depth 2};8:7 reg r@8:11:UInt@8:15,c@8:21;9:7 w@9:7 is invalid][]]}",
    ),
    (
        b"circuit T :\n  module M :\n    input a : UInt<1>\n    input <= a\n    output is invalid\n",
        b"T@1:9{2:3 M@2:10(input a@3:11:UInt<1>@3:15)[4:5 input@4:5<=a@4:14;5:5 output@5:5 is invalid]}",
    ),
    (
        b"circuit T :\n  module M :\n    skip ; a comment\n    ; a comment alone\n    \n    skip @[file.scala 3:4]\n",
        b"T@1:9{2:3 M@2:10()[3:5 skip;6:5 skip]}",
    ),
];
