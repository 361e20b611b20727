//! Messages whose parts lie at odd places.

/// A first gap of 3 bytes and a second one of 1 byte.
const GAPS: &str = "publish-subscribe A
header 5 4 H
user-header 3 4 U
payload dynamic 2 2 P
elements 3
";

/// Parts that begin or end 10, 8 and 4 bytes before a message of 100 bytes does: beside the first of
/// these offsets there is no room for the second one, and beside the last one none for the third.
const LATE: &str = "publish-subscribe A
header 90 4 H
user-header 2 2 U
payload fixed 4 1 P
";

/// Elements that have a twelfth of the bar together: 600 of its 7,200 tenths of a pixel.
const CROWDED: &str = "publish-subscribe A
header 11000 8 H
user-header 0 1 U
payload dynamic 1 1 P
elements 1000
";

/// Many elements of one byte, with 416 bytes of spare room behind them.
const SPARE: &str = "publish-subscribe A
header 8 1024 H
user-header 0 1 U
payload dynamic 1 1 P
elements 600
";

/// The words of a command line, a description, and with what its drawing ends.
pub(crate) static ENDS: [(&[&str], &str, &str); 6] = [
    (
        &[],
        GAPS,
        "
message: 20 bytes, alignment 4

  HHHHH...UUU.001122--
  a character for each byte

    offset       size  alignment             part
         0          5          4             H header H
         5          3                        . padding
         8          3          4             U user header U
        11          1                        . padding
        12          6          2               payload 3 of P
        12          2                        0   element 0
        14          2                        1   element 1
        16          2                        2   element 2
        18          2                        - padding
        20                                     end
  data segment of a publisher: 34 chunks of 20 bytes, 680 bytes, of all 2 publishers: 1360 bytes

attributes

required by an opener
  verified
",
    ),
    (
        &[],
        SPARE,
        "
message: 1024 bytes, alignment 1024

  H8406284062840628406284062840628406284--------------------------
  a character for each 16 bytes, which shows what lies at the first

    offset       size  alignment             part
         0          8       1024             H header H
         8          0          1             U user header U
         8        600          1               payload 600 of P
         8          1                        0   element 0
         9          1                        1   element 1
        10          1                        2   element 2
        11          1                        3   element 3
                                                 and 596 more
       608        416                        - padding
      1024                                     end
  data segment of a publisher: 34 chunks of 1024 bytes, 34816 bytes, of all 2 publishers: 69632 bytes

attributes

required by an opener
  verified
",
    ),
    (
        &["svg"],
        GAPS,
        "
<g transform=\"translate(0 720)\">
<rect x=\"200\" y=\"0\" width=\"1800\" height=\"460\" class=\"part header\"/>
<rect x=\"2000\" y=\"0\" width=\"1080\" height=\"460\" class=\"part empty\"/>
<rect x=\"3080\" y=\"0\" width=\"1080\" height=\"460\" class=\"part user-header\"/>
<rect x=\"4160\" y=\"0\" width=\"360\" height=\"460\" class=\"part empty\"/>
<rect x=\"4520\" y=\"0\" width=\"720\" height=\"460\" class=\"part payload\"/>
<rect x=\"5240\" y=\"0\" width=\"720\" height=\"460\" class=\"part other\"/>
<rect x=\"5960\" y=\"0\" width=\"720\" height=\"460\" class=\"part payload\"/>
<rect x=\"6680\" y=\"0\" width=\"720\" height=\"460\" class=\"part empty\"/>
<text x=\"200\" y=\"610\" font-size=\"110\">0</text>
<text x=\"2000\" y=\"610\" font-size=\"110\" text-anchor=\"middle\">5</text>
<text x=\"3080\" y=\"610\" font-size=\"110\" text-anchor=\"middle\">8</text>
<text x=\"4160\" y=\"610\" font-size=\"110\" text-anchor=\"middle\">11</text>
<text x=\"4520\" y=\"610\" font-size=\"110\" text-anchor=\"middle\">12</text>
<text x=\"5240\" y=\"610\" font-size=\"110\" text-anchor=\"middle\">14</text>
<text x=\"5960\" y=\"610\" font-size=\"110\" text-anchor=\"middle\">16</text>
<text x=\"6680\" y=\"610\" font-size=\"110\" text-anchor=\"middle\">18</text>
<text x=\"7400\" y=\"610\" font-size=\"110\" text-anchor=\"end\">20</text>
</g>
<rect x=\"200\" y=\"1460\" width=\"140\" height=\"140\" class=\"part header\"/>
<text x=\"440\" y=\"1460\" dy=\"115\">header: offset 0, 5 bytes</text>
<text x=\"440\" y=\"1660\" dy=\"110\" font-size=\"110\" font-family=\"monospace\" xml:space=\"preserve\">alignment 4, H</text>
<rect x=\"200\" y=\"1870\" width=\"140\" height=\"140\" class=\"part empty\"/>
<text x=\"440\" y=\"1870\" dy=\"115\">padding: offset 5, 3 bytes</text>
<rect x=\"200\" y=\"2110\" width=\"140\" height=\"140\" class=\"part user-header\"/>
<text x=\"440\" y=\"2110\" dy=\"115\">user header: offset 8, 3 bytes</text>
<text x=\"440\" y=\"2310\" dy=\"110\" font-size=\"110\" font-family=\"monospace\" xml:space=\"preserve\">alignment 4, U</text>
<rect x=\"200\" y=\"2520\" width=\"140\" height=\"140\" class=\"part empty\"/>
<text x=\"440\" y=\"2520\" dy=\"115\">padding: offset 11, 1 byte</text>
<rect x=\"200\" y=\"2760\" width=\"140\" height=\"140\" class=\"part payload\"/>
<text x=\"440\" y=\"2760\" dy=\"115\">payload: offset 12, 6 bytes</text>
<text x=\"440\" y=\"2960\" dy=\"110\" font-size=\"110\" font-family=\"monospace\" xml:space=\"preserve\">alignment 2, P</text>
<rect x=\"200\" y=\"3170\" width=\"140\" height=\"140\" class=\"part empty\"/>
<text x=\"440\" y=\"3170\" dy=\"115\">padding: offset 18, 2 bytes</text>
<text x=\"200\" y=\"3470\" dy=\"110\" font-size=\"110\" font-family=\"monospace\" xml:space=\"preserve\">3 elements of 2 bytes</text>
<text x=\"200\" y=\"3640\" dy=\"110\" font-size=\"110\" font-family=\"monospace\" xml:space=\"preserve\">data segment of a publisher: 34 chunks of 20 bytes, 680 bytes, of all 2 publishers: 1360 bytes</text>
</svg>
",
    ),
    (
        &["svg"],
        LATE,
        "
<g transform=\"translate(0 720)\">
<rect x=\"200\" y=\"0\" width=\"6480\" height=\"460\" class=\"part header\"/>
<rect x=\"6680\" y=\"0\" width=\"144\" height=\"460\" class=\"part user-header\"/>
<rect x=\"6824\" y=\"0\" width=\"288\" height=\"460\" class=\"part payload\"/>
<rect x=\"7112\" y=\"0\" width=\"288\" height=\"460\" class=\"part empty\"/>
<text x=\"200\" y=\"610\" font-size=\"110\">0</text>
<text x=\"6680\" y=\"610\" font-size=\"110\" text-anchor=\"middle\">90</text>
<text x=\"7400\" y=\"610\" font-size=\"110\" text-anchor=\"end\">100</text>
</g>
<rect x=\"200\" y=\"1460\" width=\"140\" height=\"140\" class=\"part header\"/>
<text x=\"440\" y=\"1460\" dy=\"115\">header: offset 0, 90 bytes</text>
<text x=\"440\" y=\"1660\" dy=\"110\" font-size=\"110\" font-family=\"monospace\" xml:space=\"preserve\">alignment 4, H</text>
<rect x=\"200\" y=\"1870\" width=\"140\" height=\"140\" class=\"part user-header\"/>
<text x=\"440\" y=\"1870\" dy=\"115\">user header: offset 90, 2 bytes</text>
<text x=\"440\" y=\"2070\" dy=\"110\" font-size=\"110\" font-family=\"monospace\" xml:space=\"preserve\">alignment 2, U</text>
<rect x=\"200\" y=\"2280\" width=\"140\" height=\"140\" class=\"part payload\"/>
<text x=\"440\" y=\"2280\" dy=\"115\">payload: offset 92, 4 bytes</text>
<text x=\"440\" y=\"2480\" dy=\"110\" font-size=\"110\" font-family=\"monospace\" xml:space=\"preserve\">alignment 1, P</text>
<rect x=\"200\" y=\"2690\" width=\"140\" height=\"140\" class=\"part empty\"/>
<text x=\"440\" y=\"2690\" dy=\"115\">padding: offset 96, 4 bytes</text>
<text x=\"200\" y=\"2990\" dy=\"110\" font-size=\"110\" font-family=\"monospace\" xml:space=\"preserve\">1 element of 4 bytes</text>
<text x=\"200\" y=\"3160\" dy=\"110\" font-size=\"110\" font-family=\"monospace\" xml:space=\"preserve\">data segment of a publisher: 34 chunks of 100 bytes, 3400 bytes, of all 2 publishers: 6800 bytes</text>
</svg>
",
    ),
    (
        &["svg"],
        CROWDED,
        "
<g transform=\"translate(0 720)\">
<rect x=\"200\" y=\"0\" width=\"6600\" height=\"460\" class=\"part header\"/>
<rect x=\"6800\" y=\"0\" width=\"600\" height=\"460\" class=\"part payload\"/>
<text x=\"7100\" y=\"270\" font-size=\"110\" text-anchor=\"middle\" class=\"label\">+1000</text>
<text x=\"200\" y=\"610\" font-size=\"110\">0</text>
<text x=\"6800\" y=\"610\" font-size=\"110\" text-anchor=\"middle\">11000</text>
<text x=\"7400\" y=\"610\" font-size=\"110\" text-anchor=\"end\">12000</text>
</g>
<rect x=\"200\" y=\"1460\" width=\"140\" height=\"140\" class=\"part header\"/>
<text x=\"440\" y=\"1460\" dy=\"115\">header: offset 0, 11000 bytes</text>
<text x=\"440\" y=\"1660\" dy=\"110\" font-size=\"110\" font-family=\"monospace\" xml:space=\"preserve\">alignment 8, H</text>
<rect x=\"200\" y=\"1870\" width=\"140\" height=\"140\" class=\"part user-header\"/>
<text x=\"440\" y=\"1870\" dy=\"115\">user header: offset 11000, 0 bytes</text>
<text x=\"440\" y=\"2070\" dy=\"110\" font-size=\"110\" font-family=\"monospace\" xml:space=\"preserve\">alignment 1, U</text>
<rect x=\"200\" y=\"2280\" width=\"140\" height=\"140\" class=\"part payload\"/>
<text x=\"440\" y=\"2280\" dy=\"115\">payload: offset 11000, 1000 bytes</text>
<text x=\"440\" y=\"2480\" dy=\"110\" font-size=\"110\" font-family=\"monospace\" xml:space=\"preserve\">alignment 1, P</text>
<text x=\"200\" y=\"2750\" dy=\"110\" font-size=\"110\" font-family=\"monospace\" xml:space=\"preserve\">1000 elements of 1 byte</text>
<text x=\"200\" y=\"2920\" dy=\"110\" font-size=\"110\" font-family=\"monospace\" xml:space=\"preserve\">data segment of a publisher: 34 chunks of 12000 bytes, 408000 bytes, of all 2 publishers: 816000 bytes</text>
</svg>
",
    ),
    (
        &["svg"],
        SPARE,
        "
<g transform=\"translate(0 720)\">
<rect x=\"200\" y=\"0\" width=\"56\" height=\"460\" class=\"part header\"/>
<rect x=\"256\" y=\"0\" width=\"4219\" height=\"460\" class=\"part payload\"/>
<text x=\"2365\" y=\"270\" font-size=\"110\" text-anchor=\"middle\" class=\"label\">600 elements</text>
<rect x=\"4475\" y=\"0\" width=\"2925\" height=\"460\" class=\"part empty\"/>
<text x=\"200\" y=\"610\" font-size=\"110\">0</text>
<text x=\"4475\" y=\"610\" font-size=\"110\" text-anchor=\"middle\">608</text>
<text x=\"7400\" y=\"610\" font-size=\"110\" text-anchor=\"end\">1024</text>
</g>
<rect x=\"200\" y=\"1460\" width=\"140\" height=\"140\" class=\"part header\"/>
<text x=\"440\" y=\"1460\" dy=\"115\">header: offset 0, 8 bytes</text>
<text x=\"440\" y=\"1660\" dy=\"110\" font-size=\"110\" font-family=\"monospace\" xml:space=\"preserve\">alignment 1024, H</text>
<rect x=\"200\" y=\"1870\" width=\"140\" height=\"140\" class=\"part user-header\"/>
<text x=\"440\" y=\"1870\" dy=\"115\">user header: offset 8, 0 bytes</text>
<text x=\"440\" y=\"2070\" dy=\"110\" font-size=\"110\" font-family=\"monospace\" xml:space=\"preserve\">alignment 1, U</text>
<rect x=\"200\" y=\"2280\" width=\"140\" height=\"140\" class=\"part payload\"/>
<text x=\"440\" y=\"2280\" dy=\"115\">payload: offset 8, 600 bytes</text>
<text x=\"440\" y=\"2480\" dy=\"110\" font-size=\"110\" font-family=\"monospace\" xml:space=\"preserve\">alignment 1, P</text>
<rect x=\"200\" y=\"2690\" width=\"140\" height=\"140\" class=\"part empty\"/>
<text x=\"440\" y=\"2690\" dy=\"115\">padding: offset 608, 416 bytes</text>
<text x=\"200\" y=\"2990\" dy=\"110\" font-size=\"110\" font-family=\"monospace\" xml:space=\"preserve\">600 elements of 1 byte</text>
<text x=\"200\" y=\"3160\" dy=\"110\" font-size=\"110\" font-family=\"monospace\" xml:space=\"preserve\">data segment of a publisher: 34 chunks of 1024 bytes, 34816 bytes, of all 2 publishers: 69632 bytes</text>
</svg>
",
    ),
];
