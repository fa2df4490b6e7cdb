/// The file of a small zone `example.`, with an address, a wildcard, an empty non-terminal, an
/// alias and a zone cut with glue.
pub const SMALL: &str = "$TTL 3600
@ SOA ns hostmaster 1 7200 900 1209600 300
@ NS ns
ns A 192.0.2.1
www A 192.0.2.10
alias CNAME www
*.w TXT \"any\"
a.b.ent A 192.0.2.11
sub NS ns.sub
ns.sub A 192.0.2.53
";

/// The zone as it is printed, in canonical order.
pub const SMALL_PRINTED: &str =
    "example. 3600 IN SOA ns.example. hostmaster.example. 1 7200 900 1209600 300
example. 3600 IN NS ns.example.
alias.example. 3600 IN CNAME www.example.
a.b.ent.example. 3600 IN A 192.0.2.11
ns.example. 3600 IN A 192.0.2.1
sub.example. 3600 IN NS ns.sub.example.
ns.sub.example. 3600 IN A 192.0.2.53
*.w.example. 3600 IN TXT \"any\"
www.example. 3600 IN A 192.0.2.10
";

/// The report on the small zone, and on any valid zone `example.` with serial 1.
pub const LOADED: &str = "zone example/IN: loaded serial 1\nOK\n";

/// A file with an entry over several lines, another origin, and data of many forms.
pub const MIXED: &str = "$TTL 60
@ SOA ns h ( 1 2
 3 4 ; c
 5 )
 NS ns
ns A 192.0.2.1
 AAAA 2001:DB8:0:0:1::1
$ORIGIN deep
a\\.b 7 IN TXT hi \"x;y\"
 CLASS1 9 TYPE65280 \\# 3 AB cdef
";

/// The zone as it is printed, in canonical order.
pub const MIXED_PRINTED: &str = "example. 60 IN SOA ns.example. h.example. 1 2 3 4 5
example. 60 IN NS ns.example.
a\\.b.deep.example. 7 IN TXT \"hi\" \"x;y\"
a\\.b.deep.example. 9 IN TYPE65280 \\# 3 abcdef
ns.example. 60 IN A 192.0.2.1
ns.example. 60 IN AAAA 2001:db8::1:0:0:1
";
