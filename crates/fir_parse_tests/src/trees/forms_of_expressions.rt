//! Each form of an expression, with its tree in a short form. Written by checks/grammar.py.

pub const ROWS: &[(&[u8], &[u8])] = &[
    (
        b"circuit T :\n  module M :\n    node n = UInt<4>(5)\n",
        b"T@1:9{2:3 M@2:10()[3:5 node n@3:10=UInt@3:14<4>(5)]}",
    ),
    (
        b"circuit T :\n  module M :\n    node n = UInt(5)\n",
        b"T@1:9{2:3 M@2:10()[3:5 node n@3:10=UInt@3:14(5)]}",
    ),
    (
        b"circuit T :\n  module M :\n    node n = SInt<4>(-5)\n",
        b"T@1:9{2:3 M@2:10()[3:5 node n@3:10=SInt@3:14<4>(-5)]}",
    ),
    (
        b"circuit T :\n  module M :\n    node n = SInt(+3)\n",
        b"T@1:9{2:3 M@2:10()[3:5 node n@3:10=SInt@3:14(3)]}",
    ),
    (
        b"circuit T :\n  module M :\n    node n = UInt(\"hfF\")\n",
        b"T@1:9{2:3 M@2:10()[3:5 node n@3:10=UInt@3:14(255)]}",
    ),
    (
        b"circuit T :\n  module M :\n    node n = SInt<4>(\"-b101\")\n",
        b"T@1:9{2:3 M@2:10()[3:5 node n@3:10=SInt@3:14<4>(-5)]}",
    ),
    (
        b"circuit T :\n  module M :\n    node n = SInt(\"h-8\")\n",
        b"T@1:9{2:3 M@2:10()[3:5 node n@3:10=SInt@3:14(-8)]}",
    ),
    (
        b"circuit T :\n  module M :\n    node n = UInt<9>(\"o+17\")\n",
        b"T@1:9{2:3 M@2:10()[3:5 node n@3:10=UInt@3:14<9>(15)]}",
    ),
    (
        b"circuit T :\n  module M :\n    node n = UInt\n",
        b"T@1:9{2:3 M@2:10()[3:5 node n@3:10=UInt@3:14]}",
    ),
    (
        b"circuit T :\n  module M :\n    node n = mux\n",
        b"T@1:9{2:3 M@2:10()[3:5 node n@3:10=mux@3:14]}",
    ),
    (
        b"circuit T :\n  module M :\n    node n = not(a)\n",
        b"T@1:9{2:3 M@2:10()[3:5 node n@3:10=not@3:14(a@3:18)]}",
    ),
    (
        b"circuit T :\n  module M :\n    node n = add(sub(a, b), mul(c, d))\n",
        b"T@1:9{2:3 M@2:10()[3:5 node n@3:10=add@3:14(sub@3:18(a@3:22,b@3:25),mul@3:29(c@3:33,d@3:36))]}",
    ),
    (
        b"circuit T :\n  module M :\n    node n = div(rem(a, b), cat(c, d))\n",
        b"T@1:9{2:3 M@2:10()[3:5 node n@3:10=div@3:14(rem@3:18(a@3:22,b@3:25),cat@3:29(c@3:33,d@3:36))]}",
    ),
    (
        b"circuit T :\n  module M :\n    node n = or(and(lt(a, b), leq(c, d)), xor(gt(e, f), geq(g, h)))\n",
        b"T@1:9{2:3 M@2:10()[3:5 node n@3:10=or@3:14(and@3:17(lt@3:21(a@3:24,b@3:27),leq@3:31(c@3:35,d@3:38)),xor@3:43(gt@3:47(e@3:50,f@3:53),geq@3:57(g@3:61,h@3:64)))]}",
    ),
    (
        b"circuit T :\n  module M :\n    node n = mux(eq(a, b), neq(c, d), validif(e, f))\n",
        b"T@1:9{2:3 M@2:10()[3:5 node n@3:10=mux@3:14(eq@3:18(a@3:21,b@3:24),neq@3:28(c@3:32,d@3:35),validif@3:39(e@3:47,f@3:50))]}",
    ),
    (
        b"circuit T :\n  module M :\n    node n = dshl(dshr(a, b), andr(c))\n",
        b"T@1:9{2:3 M@2:10()[3:5 node n@3:10=dshl@3:14(dshr@3:19(a@3:24,b@3:27),andr@3:31(c@3:36))]}",
    ),
    (
        b"circuit T :\n  module M :\n    node n = xorr(orr(cvt(neg(a))))\n",
        b"T@1:9{2:3 M@2:10()[3:5 node n@3:10=xorr@3:14(orr@3:19(cvt@3:23(neg@3:27(a@3:31))))]}",
    ),
    (
        b"circuit T :\n  module M :\n    node n = asUInt(asSInt(asAsyncReset(a)))\n",
        b"T@1:9{2:3 M@2:10()[3:5 node n@3:10=asUInt@3:14(asSInt@3:21(asAsyncReset@3:28(a@3:41)))]}",
    ),
    (
        b"circuit T :\n  module M :\n    node n = pad(shl(a, 3), 0)\n",
        b"T@1:9{2:3 M@2:10()[3:5 node n@3:10=pad@3:14(shl@3:18(a@3:22,3),0)]}",
    ),
    (
        b"circuit T :\n  module M :\n    node n = tail(head(shr(a, 1), 20), 4)\n",
        b"T@1:9{2:3 M@2:10()[3:5 node n@3:10=tail@3:14(head@3:19(shr@3:24(a@3:28,1),20),4)]}",
    ),
    (
        b"circuit T :\n  module M :\n    node n = bits(a, 3, 0)\n",
        b"T@1:9{2:3 M@2:10()[3:5 node n@3:10=bits@3:14(a@3:19,3,0)]}",
    ),
    (
        b"circuit T :\n  module M :\n    node n = a.b\n",
        b"T@1:9{2:3 M@2:10()[3:5 node n@3:10=a@3:14.@3:15 b@3:16]}",
    ),
    (
        b"circuit T :\n  module M :\n    node n = a.7.flip\n",
        b"T@1:9{2:3 M@2:10()[3:5 node n@3:10=a@3:14.@3:15 7@3:16.@3:17 flip@3:18]}",
    ),
    (
        b"circuit T :\n  module M :\n    node n = a[3]\n",
        b"T@1:9{2:3 M@2:10()[3:5 node n@3:10=a@3:14[@3:15 3@3:16]]}",
    ),
    (
        b"circuit T :\n  module M :\n    node n = a[b.c[2]].d[add(x, y)]\n",
        b"T@1:9{2:3 M@2:10()[3:5 node n@3:10=a@3:14[@3:15 b@3:16.@3:17 c@3:18[@3:19 2@3:20]].@3:23 d@3:24[@3:25 add@3:26(x@3:30,y@3:33)]]}",
    ),
    (
        b"circuit T :\n  module M :\n    node n = a[UInt<2>(1)]\n",
        b"T@1:9{2:3 M@2:10()[3:5 node n@3:10=a@3:14[@3:15 UInt@3:16<2>(1)]]}",
    ),
];
