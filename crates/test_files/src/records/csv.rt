/// Texts of CSV, a line for each, with what RFC 4180 and the tests of the Rust crate `csv-core` read in it behind `=>`:
/// `|` ends a field and `;` a record. In both `/` is LF and `~` is CR. A test that walks the lines has none of the texts
/// in its proof.
pub fn csv_cases() -> &'static str {
    CASES
}

const CASES: &str = "\
=>
a=>a|;
a,b,c=>a|b|c|;
a,b,=>a|b||;
a,b,c/=>a|b|c|;
a,b,/=>a|b||;
a~/=>a|;
a,b,~/=>a|b||;
a~=>a|;
a,b,c~=>a|b|c|;
a/b=>a|;b|;
a,b,c/x,y,z=>a|b|c|;x|y|z|;
a,b,/x,y,=>a|b||;x|y||;
a,b,c~/x,y,z~/=>a|b|c|;x|y|z|;
a,b,c~x,y,z~=>a|b|c|;x|y|z|;
///a,b,c/x,y,z///=>a|b|c|;x|y|z|;
~~~a,b,c~x,y,z~~~=>a|b|c|;x|y|z|;
~/~/~/a,b,c~/x,y,z~/~/~/=>a|b|c|;x|y|z|;
////=>
~/~/~/~/=>
~//~//=>
~~~~=>
/~/a,b~//~/x,y~//~/m,n~/=>a|b|;x|y|;m|n|;
\u{feff}a=>a|;
a\u{feff}=>a\u{feff}|;
a,\u{feff}b=>a|\u{feff}b|;
\"\"=>|;
\"\"/=>|;
\" \"=> |;
\" a \"=> a |;
  \"a\"  =>  \"a\"  |;
\"a\\\"b\"=>a\\b\"|;
foo~/1~/=>foo|;1|;
foo,b#ar,baz=>foo|b#ar|baz|;
aaa,bbb,ccc~/zzz,yyy,xxx~/=>aaa|bbb|ccc|;zzz|yyy|xxx|;
\"aaa\",\"bbb\",\"ccc\"~/zzz,yyy,xxx=>aaa|bbb|ccc|;zzz|yyy|xxx|;
\"aaa\",\"b~/bb\",\"ccc\"~/zzz,yyy,xxx=>aaa|b~/bb|ccc|;zzz|yyy|xxx|;
\"aaa\",\"b\"\"bb\",\"ccc\"=>aaa|b\"bb|ccc|;
a, b ,c=>a| b |c|;
\"a,b\",\",\"=>a,b|,|;";
