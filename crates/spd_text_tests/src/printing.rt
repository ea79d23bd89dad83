// Texts with the canonical texts of their programs.

use spd_canonical::print_program;
use spd_parse::parse;
use spd_syntax::lex;
use std::alloc::Global;
use std::test::Fail;

/// Texts, each with its canonical text.
const ROWS: [(&[u8], &[u8]); 55] = [
    (b"", b""),
    (b"main{}", b"main {\n}\n"),
    (b"main{print 1+(2*3);}", b"main {\n  print 1 + 2 * 3;\n}\n"),
    // operands of lower, of the same and of higher levels
    (
        b"main{print (1+2)*3;}",
        b"main {\n  print (1 + 2) * 3;\n}\n",
    ),
    (
        b"main{print ((1-2)-3)-(4-5);}",
        b"main {\n  print 1 - 2 - 3 - (4 - 5);\n}\n",
    ),
    (
        b"main{print (1/2)%(3*4);}",
        b"main {\n  print 1 / 2 % (3 * 4);\n}\n",
    ),
    (
        b"main{print (a&&b)||(c||d);}",
        b"main {\n  print a && b || (c || d);\n}\n",
    ),
    (
        b"main{print (a||b)&&(c&&d);}",
        b"main {\n  print (a || b) && (c && d);\n}\n",
    ),
    // comparisons don't group
    (
        b"main{print (1<2)==3;}",
        b"main {\n  print (1 < 2) == 3;\n}\n",
    ),
    (
        b"main{print 1>=(2!=3);}",
        b"main {\n  print 1 >= (2 != 3);\n}\n",
    ),
    (
        b"main{print (1<=2)&&(3>4);}",
        b"main {\n  print 1 <= 2 && 3 > 4;\n}\n",
    ),
    // unary operators
    (
        b"main{print -(-a),!(a+b),-(c[0]);}",
        b"main {\n  print -(-a), !(a + b), -c[0];\n}\n",
    ),
    (
        b"main{print a- -1,a-(-1)-b,(-a)*(!b);}",
        b"main {\n  print a - -1, a - -1 - b, -a * !b;\n}\n",
    ),
    (
        b"main{print(-(1)),f-1;}",
        b"main {\n  print -1, f - 1;\n}\n",
    ),
    // numbers and strings
    (
        b"main{print 007,0,9223372036854775807;}",
        b"main {\n  print 7, 0, 9223372036854775807;\n}\n",
    ),
    (
        b"main{print \"a \\\"b\\\" \\\\\",\"#\";}",
        b"main {\n  print \"a \\\"b\\\" \\\\\", \"#\";\n}\n",
    ),
    // columns
    (
        b"main{print len (c),c [1+2],size(c,(0));}",
        b"main {\n  print len(c), c[1 + 2], size(c, 0);\n}\n",
    ),
    (
        b"main{print at(c,-1,(2)),same(c,3,\"\"),begins(c,4,\"x\");}",
        b"main {\n  print at(c, -1, 2), same(c, 3, \"\"), begins(c, 4, \"x\");\n}\n",
    ),
    // statements of one line
    (
        b"main{let x=(1);let y=f(x,(x+1));let z=g();x=-x;run t(x);return x;offer(2);}",
        b"main {\n  let x = 1;\n  let y = f(x, x + 1);\n  let z = g();\n  x = -x;\n  run t(x);\n  return x;\n  offer 2;\n}\n",
    ),
    (
        b"main{let x=f[1]*(2);let y=f;let z=(f)+1;}",
        b"main {\n  let x = f[1] * 2;\n  let y = f;\n  let z = f + 1;\n}\n",
    ),
    // blocks
    (
        b"main{if 1{offer 2;}else{offer 3;}}",
        b"main {\n  if 1 {\n    offer 2;\n  } else {\n    offer 3;\n  }\n}\n",
    ),
    (
        b"main{if 1{offer 2;}else{}}",
        b"main {\n  if 1 {\n    offer 2;\n  }\n}\n",
    ),
    (
        b"main{if 1{}else{if 2{}}}",
        b"main {\n  if 1 {\n  } else {\n    if 2 {\n    }\n  }\n}\n",
    ),
    (
        b"main{for i in 0..len(c){async{offer i;}}}",
        b"main {\n  for i in 0..len(c) {\n    async {\n      offer i;\n    }\n  }\n}\n",
    ),
    (
        b"main{for i in(0-1)..-1{}}",
        b"main {\n  for i in 0 - 1..-1 {\n  }\n}\n",
    ),
    (
        b"main{let x=finish least{offer 5;}finish{}}",
        b"main {\n  let x = finish least {\n    offer 5;\n  }\n  finish {\n  }\n}\n",
    ),
    // items, comments and blanks
    (
        b"fn f(a,b){return a;}task g(){}",
        b"fn f(a, b) {\n  return a;\n}\ntask g() {\n}\n",
    ),
    (
        b"column p:int from\"p.csv\"field\"a\\\\b\";column q : text from \"\" field \"\\\"\";",
        b"column p: int from \"p.csv\" field \"a\\\\b\";\ncolumn q: text from \"\" field \"\\\"\";\n",
    ),
    (
        b"lines l from\"x\";main{}",
        b"lines l from \"x\";\nmain {\n}\n",
    ),
    (
        b"# a\r\nmain # b\n{\n\n\tprint 1 ; # c\n}\n#",
        b"main {\n  print 1;\n}\n",
    ),
    (
        b"main{let s=finish sum{run add(0,len(price));}print \"sum \",s;}",
        b"main {\n  let s = finish sum {\n    run add(0, len(price));\n  }\n  print \"sum \", s;\n}\n",
    ),
    // signs, with and without spaces
    (
        b"main{print - 1,-(1),- a-1,!(c[0]),-(len(c));}",
        b"main {\n  print -1, -1, -a - 1, !c[0], -len(c);\n}\n",
    ),
    (
        b"main{print-1- -1-(-1),!(!a),!(-a),-(!a);}",
        b"main {\n  print -1 - -1 - -1, !(!a), !(-a), -(!a);\n}\n",
    ),
    (
        b"main{print -(a*b),-a*b,(-a)*b,-(a)-(b);}",
        b"main {\n  print -(a * b), -a * b, -a * b, -a - b;\n}\n",
    ),
    // parentheses that are needed, and the others
    (
        b"main{print ((((a))))+(((b)));}",
        b"main {\n  print a + b;\n}\n",
    ),
    (
        b"main{print a-(b+c),a-(b*c),(a-b)*c,a*(b-c);}",
        b"main {\n  print a - (b + c), a - b * c, (a - b) * c, a * (b - c);\n}\n",
    ),
    (
        b"main{print a/(b*c),(a/b)*c,a%(b%c),(a%b)%c;}",
        b"main {\n  print a / (b * c), a / b * c, a % (b % c), a % b % c;\n}\n",
    ),
    (
        b"main{print (a<b)<c,a<(b<c),(a==b)!=(c==d);}",
        b"main {\n  print (a < b) < c, a < (b < c), (a == b) != (c == d);\n}\n",
    ),
    (
        b"main{print (a+b)<(c*d),a+(b<c),(a<b)+c,!(a<b);}",
        b"main {\n  print a + b < c * d, a + (b < c), (a < b) + c, !(a < b);\n}\n",
    ),
    (
        b"main{print a||(b&&(c==(d+(e*(-f)))));}",
        b"main {\n  print a || b && c == d + e * -f;\n}\n",
    ),
    (
        b"main{print ((((a*b)+c)==d)&&e)||f;}",
        b"main {\n  print a * b + c == d && e || f;\n}\n",
    ),
    (
        b"main{print a*(b+(c==(d&&(e||f))));}",
        b"main {\n  print a * (b + (c == (d && (e || f))));\n}\n",
    ),
    // brackets of columns and calls hold any expression bare
    (
        b"main{print c[(a||b)],c[c[c[0]]],at(c,(a<b),(a-b)),size(c,len(c)-1);}",
        b"main {\n  print c[a || b], c[c[c[0]]], at(c, a < b, a - b), size(c, len(c) - 1);\n}\n",
    ),
    (
        b"main{print same(c,(1),\"\\\"\"),begins(c,(-1),\"\\\\\"),(begins(c,0,\"\"))+1;}",
        b"main {\n  print same(c, 1, \"\\\"\"), begins(c, -1, \"\\\\\"), begins(c, 0, \"\") + 1;\n}\n",
    ),
    (
        b"main{let x=f((a),(b||c),-(d));run t((1-2)-3,4-(5-6));}",
        b"main {\n  let x = f(a, b || c, -d);\n  run t(1 - 2 - 3, 4 - (5 - 6));\n}\n",
    ),
    // strings beside values
    (
        b"main{print\"\";print\"a\",\"b\";print\"a\",(1),\"\\\\\\\\\",\"{;}\";}",
        b"main {\n  print \"\";\n  print \"a\", \"b\";\n  print \"a\", 1, \"\\\\\\\\\", \"{;}\";\n}\n",
    ),
    // blocks in blocks
    (
        b"main{if a{if b{if c{}}}}",
        b"main {\n  if a {\n    if b {\n      if c {\n      }\n    }\n  }\n}\n",
    ),
    (
        b"main{if a{}else{if b{}else{x=1;}}y=2;}",
        b"main {\n  if a {\n  } else {\n    if b {\n    } else {\n      x = 1;\n    }\n  }\n  y = 2;\n}\n",
    ),
    (
        b"main{finish{async{}async{finish{}}}let g=finish greatest{for i in 0..9{offer i;}}}",
        b"main {\n  finish {\n    async {\n    }\n    async {\n      finish {\n      }\n    }\n  }\n  let g = finish greatest {\n    for i in 0..9 {\n      offer i;\n    }\n  }\n}\n",
    ),
    (
        b"main{for i in(a)..(b){}for j in a||b..c&&d{}for k in-1..!0{}}",
        b"main {\n  for i in a..b {\n  }\n  for j in a || b..c && d {\n  }\n  for k in -1..!0 {\n  }\n}\n",
    ),
    // items, one behind the other
    (
        b"main{}main{}fn f(){}task t(a){}column c:int from\"a\"field\"b\";lines l from\"c\";",
        b"main {\n}\nmain {\n}\nfn f() {\n}\ntask t(a) {\n}\ncolumn c: int from \"a\" field \"b\";\nlines l from \"c\";\n",
    ),
    (
        b"lines\nl\n\nfrom # a\n\"a b\"\t;column\r\nc:text from\"#\"field\"'\";",
        b"lines l from \"a b\";\ncolumn c: text from \"#\" field \"'\";\n",
    ),
    (
        b"fn\tf ( a , b\n, c ) { } # the end",
        b"fn f(a, b, c) {\n}\n",
    ),
    (
        b"task t(format,int1,main_){format=int1;_=main_;}",
        b"task t(format, int1, main_) {\n  format = int1;\n  _ = main_;\n}\n",
    ),
    (
        b"main{if(a)-b{return-1;}else{return(a);}offer(c[0]);}",
        b"main {\n  if a - b {\n    return -1;\n  } else {\n    return a;\n  }\n  offer c[0];\n}\n",
    ),
];

/// The canonical text of what a text spells.
fn canonical(alloc: Global, text: &[u8]) -> Result<Vec<u8>, Fail> {
    let tokens = lex(alloc, text)?;
    let program = parse(alloc, text, tokens.as_slice())?;
    Ok(print_program(alloc, &program)?)
}

#[test]
fn programs_are_printed_and_read_again(rt: HostRuntime) -> Result<(), Fail> {
    for (text, expected) in &ROWS {
        let printed = canonical(rt.alloc(), text)?;
        assert_eq!(rt; printed.as_slice(), *expected);
        let again = canonical(rt.alloc(), expected)?;
        assert_eq!(rt; again.as_slice(), *expected);
    }
    Ok(())
}
