//! Services as pictures.

/// A description, and its picture before and after the colors.
#[derive(Clone, Copy)]
pub(crate) struct Picture {
    pub(crate) input: &'static str,
    pub(crate) begin: &'static str,
    pub(crate) end: &'static str,
}

/// The colors of each picture.
pub(crate) const COLORS: &str = "<style>
.page { fill: #ffffff }
.ink { fill: #222222 }
.label { fill: #222222 }
.part { stroke: #222222; stroke-width: 8 }
.header { fill: #4e79a7 }
.user-header { fill: #f28e2b }
.payload { fill: #8cd17d }
.other { fill: #59a14f }
.empty { fill: #dddddd }
@media (prefers-color-scheme: dark) {
.page { fill: #1b1b1b }
.ink { fill: #eeeeee }
.part { stroke: #eeeeee }
.empty { fill: #555555 }
}
</style>
";

/// A picture, with names that hold characters which have a meaning in a document.
pub(crate) const PICTURE: Picture = Picture {
    input: "publish-subscribe Shown
header 16 8 A<B>
user-header 4 4 u32
payload dynamic 8 8 &C
elements 2
opener 8 1 4
",
    begin: "<svg xmlns=\"http://www.w3.org/2000/svg\" viewBox=\"0 0 7600 4000\" width=\"760\" role=\"img\" aria-labelledby=\"title description\" font-family=\"sans-serif\" font-size=\"130\" class=\"ink\">
<title id=\"title\">Shown (publish-subscribe)</title>
<desc id=\"description\">A message of 48 bytes: a header of 16 bytes at offset 0, a user header of 4 bytes at offset 16, a payload of 2 elements at offset 24.</desc>
",
    end: "<rect class=\"page\" width=\"7600\" height=\"4000\"/>
<text x=\"200\" y=\"150\" dy=\"150\" font-size=\"150\" font-family=\"monospace\" xml:space=\"preserve\">Shown (publish-subscribe)</text>
<text x=\"200\" y=\"480\" dy=\"150\" font-size=\"150\">message: 48 bytes, alignment 8</text>
<g transform=\"translate(0 720)\">
<rect x=\"200\" y=\"0\" width=\"2400\" height=\"460\" class=\"part header\"/>
<rect x=\"2600\" y=\"0\" width=\"600\" height=\"460\" class=\"part user-header\"/>
<rect x=\"3200\" y=\"0\" width=\"600\" height=\"460\" class=\"part empty\"/>
<rect x=\"3800\" y=\"0\" width=\"1200\" height=\"460\" class=\"part payload\"/>
<rect x=\"5000\" y=\"0\" width=\"1200\" height=\"460\" class=\"part other\"/>
<rect x=\"6200\" y=\"0\" width=\"1200\" height=\"460\" class=\"part empty\"/>
<text x=\"200\" y=\"610\" font-size=\"110\">0</text>
<text x=\"2600\" y=\"610\" font-size=\"110\" text-anchor=\"middle\">16</text>
<text x=\"3200\" y=\"610\" font-size=\"110\" text-anchor=\"middle\">20</text>
<text x=\"3800\" y=\"610\" font-size=\"110\" text-anchor=\"middle\">24</text>
<text x=\"5000\" y=\"610\" font-size=\"110\" text-anchor=\"middle\">32</text>
<text x=\"6200\" y=\"610\" font-size=\"110\" text-anchor=\"middle\">40</text>
<text x=\"7400\" y=\"610\" font-size=\"110\" text-anchor=\"end\">48</text>
</g>
<rect x=\"200\" y=\"1460\" width=\"140\" height=\"140\" class=\"part header\"/>
<text x=\"440\" y=\"1460\" dy=\"115\">header: offset 0, 16 bytes</text>
<text x=\"440\" y=\"1660\" dy=\"110\" font-size=\"110\" font-family=\"monospace\" xml:space=\"preserve\">alignment 8, opener's 8, A&lt;B&gt;</text>
<rect x=\"200\" y=\"1870\" width=\"140\" height=\"140\" class=\"part user-header\"/>
<text x=\"440\" y=\"1870\" dy=\"115\">user header: offset 16, 4 bytes</text>
<text x=\"440\" y=\"2070\" dy=\"110\" font-size=\"110\" font-family=\"monospace\" xml:space=\"preserve\">alignment 4, opener's 1, u32</text>
<rect x=\"200\" y=\"2280\" width=\"140\" height=\"140\" class=\"part empty\"/>
<text x=\"440\" y=\"2280\" dy=\"115\">padding: offset 20, 4 bytes</text>
<rect x=\"200\" y=\"2520\" width=\"140\" height=\"140\" class=\"part payload\"/>
<text x=\"440\" y=\"2520\" dy=\"115\">payload: offset 24, 16 bytes</text>
<text x=\"440\" y=\"2720\" dy=\"110\" font-size=\"110\" font-family=\"monospace\" xml:space=\"preserve\">alignment 8, opener's 4, &amp;C</text>
<rect x=\"200\" y=\"2930\" width=\"140\" height=\"140\" class=\"part empty\"/>
<text x=\"440\" y=\"2930\" dy=\"115\">padding: offset 40, 8 bytes</text>
<text x=\"200\" y=\"3230\" dy=\"110\" font-size=\"110\" font-family=\"monospace\" xml:space=\"preserve\">2 elements of 8 bytes</text>
<text x=\"200\" y=\"3400\" dy=\"110\" font-size=\"110\" font-family=\"monospace\" xml:space=\"preserve\">data segment of a publisher: 34 chunks of 48 bytes, 1632 bytes, of all 2 publishers: 3264 bytes</text>
<text x=\"200\" y=\"3570\" dy=\"110\" font-size=\"110\" font-family=\"monospace\" xml:space=\"preserve\">the opener is compatible</text>
</svg>
",
};

/// A picture of a service without messages.
pub(crate) const WITHOUT_MESSAGES: Picture = Picture {
    input: "event A&B
",
    begin: "<svg xmlns=\"http://www.w3.org/2000/svg\" viewBox=\"0 0 7600 750\" width=\"760\" role=\"img\" aria-labelledby=\"title description\" font-family=\"sans-serif\" font-size=\"130\" class=\"ink\">
<title id=\"title\">A&amp;B (event)</title>
<desc id=\"description\">No messages.</desc>
",
    end: "<rect class=\"page\" width=\"7600\" height=\"750\"/>
<text x=\"200\" y=\"150\" dy=\"150\" font-size=\"150\" font-family=\"monospace\" xml:space=\"preserve\">A&amp;B (event)</text>
<text x=\"200\" y=\"480\" dy=\"110\" font-size=\"110\" font-family=\"monospace\" xml:space=\"preserve\">no messages</text>
</svg>
",
};

/// A picture of the type of keys.
pub(crate) const KEYS: Picture = Picture {
    input: "blackboard Board
key 12 4 [u32; 3]
",
    begin: "<svg xmlns=\"http://www.w3.org/2000/svg\" viewBox=\"0 0 7600 920\" width=\"760\" role=\"img\" aria-labelledby=\"title description\" font-family=\"sans-serif\" font-size=\"130\" class=\"ink\">
<title id=\"title\">Board (blackboard)</title>
<desc id=\"description\">No messages, but values with keys of 12 bytes.</desc>
",
    end: "<rect class=\"page\" width=\"7600\" height=\"920\"/>
<text x=\"200\" y=\"150\" dy=\"150\" font-size=\"150\" font-family=\"monospace\" xml:space=\"preserve\">Board (blackboard)</text>
<text x=\"200\" y=\"480\" dy=\"110\" font-size=\"110\" font-family=\"monospace\" xml:space=\"preserve\">no messages, but values with keys of this type:</text>
<text x=\"200\" y=\"650\" dy=\"110\" font-size=\"110\" font-family=\"monospace\" xml:space=\"preserve\">12 bytes, alignment 4, [u32; 3]</text>
</svg>
",
};

/// A picture of two messages without an opener, of which the first has no layout.
pub(crate) const TWO_MESSAGES: Picture = Picture {
    input: "request-response Pair
request-header 8 8 u64
request-user-header 0 1 ()
request-payload dynamic 1 1 u8
request-elements 9223372036854775808
response-header 8 8 u64
response-user-header 0 1 ()
response-payload fixed 8 1 [u8; 8]
",
    begin: "<svg xmlns=\"http://www.w3.org/2000/svg\" viewBox=\"0 0 7600 3710\" width=\"760\" role=\"img\" aria-labelledby=\"title description\" font-family=\"sans-serif\" font-size=\"130\" class=\"ink\">
<title id=\"title\">Pair (request-response)</title>
<desc id=\"description\">A request without a layout. A response of 16 bytes: a header of 8 bytes at offset 0, a user header of 0 bytes at offset 8, a payload of 1 element at offset 8.</desc>
",
    end: "<rect class=\"page\" width=\"7600\" height=\"3710\"/>
<text x=\"200\" y=\"150\" dy=\"150\" font-size=\"150\" font-family=\"monospace\" xml:space=\"preserve\">Pair (request-response)</text>
<text x=\"200\" y=\"480\" dy=\"150\" font-size=\"150\">request: no layout, since it would pass 9223372036854775807 bytes</text>
<text x=\"200\" y=\"840\" dy=\"150\" font-size=\"150\">response: 16 bytes, alignment 8</text>
<g transform=\"translate(0 1080)\">
<rect x=\"200\" y=\"0\" width=\"3600\" height=\"460\" class=\"part header\"/>
<rect x=\"3800\" y=\"0\" width=\"3600\" height=\"460\" class=\"part payload\"/>
<text x=\"200\" y=\"610\" font-size=\"110\">0</text>
<text x=\"3800\" y=\"610\" font-size=\"110\" text-anchor=\"middle\">8</text>
<text x=\"7400\" y=\"610\" font-size=\"110\" text-anchor=\"end\">16</text>
</g>
<rect x=\"200\" y=\"1820\" width=\"140\" height=\"140\" class=\"part header\"/>
<text x=\"440\" y=\"1820\" dy=\"115\">header: offset 0, 8 bytes</text>
<text x=\"440\" y=\"2020\" dy=\"110\" font-size=\"110\" font-family=\"monospace\" xml:space=\"preserve\">alignment 8, u64</text>
<rect x=\"200\" y=\"2230\" width=\"140\" height=\"140\" class=\"part user-header\"/>
<text x=\"440\" y=\"2230\" dy=\"115\">user header: offset 8, 0 bytes</text>
<text x=\"440\" y=\"2430\" dy=\"110\" font-size=\"110\" font-family=\"monospace\" xml:space=\"preserve\">alignment 1, ()</text>
<rect x=\"200\" y=\"2640\" width=\"140\" height=\"140\" class=\"part payload\"/>
<text x=\"440\" y=\"2640\" dy=\"115\">payload: offset 8, 8 bytes</text>
<text x=\"440\" y=\"2840\" dy=\"110\" font-size=\"110\" font-family=\"monospace\" xml:space=\"preserve\">alignment 1, [u8; 8]</text>
<text x=\"200\" y=\"3110\" dy=\"110\" font-size=\"110\" font-family=\"monospace\" xml:space=\"preserve\">1 element of 8 bytes</text>
<text x=\"200\" y=\"3280\" dy=\"110\" font-size=\"110\" font-family=\"monospace\" xml:space=\"preserve\">data segment of a server: 384 chunks of 16 bytes, 6144 bytes, of all 2 servers: 12288 bytes</text>
</svg>
",
};

/// Two elements more than are drawn one by one, and a name of two lines.
pub(crate) const MANY: Picture = Picture {
    input: "publish-subscribe NNNNNNNNNNNNNNNNNNNNNNNNNNNNNNNNNNNNNNNNNNNNNNNNNNNNNNNNNNNNNNNNNNNNNNNNNNNNNN
header 0 1 ()
user-header 0 1 ()
payload dynamic 1 1 u8
elements 18
",
    begin: "<svg xmlns=\"http://www.w3.org/2000/svg\" viewBox=\"0 0 7600 3560\" width=\"760\" role=\"img\" aria-labelledby=\"title description\" font-family=\"sans-serif\" font-size=\"130\" class=\"ink\">
<title id=\"title\">NNNNNNNNNNNNNNNNNNNNNNNNNNNNNNNNNNNNNNNNNNNNNNNNNNNNNNNNNNNNNNNNNNNNNNNNNNNNNN (publish-subscribe)</title>
<desc id=\"description\">A message of 18 bytes: a header of 0 bytes at offset 0, a user header of 0 bytes at offset 0, a payload of 18 elements at offset 0.</desc>
",
    end: "<rect class=\"page\" width=\"7600\" height=\"3560\"/>
<text x=\"200\" y=\"150\" dy=\"150\" font-size=\"150\" font-family=\"monospace\" xml:space=\"preserve\">NNNNNNNNNNNNNNNNNNNNNNNNNNNNNNNNNNNNNNNNNNNNNNNNNNNNNNNNNNNNNNNNNNNNNNNNNNNNNN</text>
<text x=\"200\" y=\"360\" dy=\"150\" font-size=\"150\" font-family=\"monospace\" xml:space=\"preserve\"> (publish-subscribe)</text>
<text x=\"200\" y=\"690\" dy=\"150\" font-size=\"150\">message: 18 bytes, alignment 1</text>
<g transform=\"translate(0 930)\">
<rect x=\"200\" y=\"0\" width=\"400\" height=\"460\" class=\"part payload\"/>
<rect x=\"600\" y=\"0\" width=\"400\" height=\"460\" class=\"part other\"/>
<rect x=\"1000\" y=\"0\" width=\"400\" height=\"460\" class=\"part payload\"/>
<rect x=\"1400\" y=\"0\" width=\"400\" height=\"460\" class=\"part other\"/>
<rect x=\"1800\" y=\"0\" width=\"400\" height=\"460\" class=\"part payload\"/>
<rect x=\"2200\" y=\"0\" width=\"400\" height=\"460\" class=\"part other\"/>
<rect x=\"2600\" y=\"0\" width=\"400\" height=\"460\" class=\"part payload\"/>
<rect x=\"3000\" y=\"0\" width=\"400\" height=\"460\" class=\"part other\"/>
<rect x=\"3400\" y=\"0\" width=\"400\" height=\"460\" class=\"part payload\"/>
<rect x=\"3800\" y=\"0\" width=\"400\" height=\"460\" class=\"part other\"/>
<rect x=\"4200\" y=\"0\" width=\"400\" height=\"460\" class=\"part payload\"/>
<rect x=\"4600\" y=\"0\" width=\"400\" height=\"460\" class=\"part other\"/>
<rect x=\"5000\" y=\"0\" width=\"400\" height=\"460\" class=\"part payload\"/>
<rect x=\"5400\" y=\"0\" width=\"400\" height=\"460\" class=\"part other\"/>
<rect x=\"5800\" y=\"0\" width=\"400\" height=\"460\" class=\"part payload\"/>
<rect x=\"6200\" y=\"0\" width=\"400\" height=\"460\" class=\"part other\"/>
<rect x=\"6600\" y=\"0\" width=\"800\" height=\"460\" class=\"part payload\"/>
<text x=\"7000\" y=\"270\" font-size=\"110\" text-anchor=\"middle\" class=\"label\">2 more</text>
<text x=\"200\" y=\"610\" font-size=\"110\">0</text>
<text x=\"600\" y=\"610\" font-size=\"110\" text-anchor=\"middle\">1</text>
<text x=\"1000\" y=\"610\" font-size=\"110\" text-anchor=\"middle\">2</text>
<text x=\"1400\" y=\"610\" font-size=\"110\" text-anchor=\"middle\">3</text>
<text x=\"1800\" y=\"610\" font-size=\"110\" text-anchor=\"middle\">4</text>
<text x=\"2200\" y=\"610\" font-size=\"110\" text-anchor=\"middle\">5</text>
<text x=\"2600\" y=\"610\" font-size=\"110\" text-anchor=\"middle\">6</text>
<text x=\"3000\" y=\"610\" font-size=\"110\" text-anchor=\"middle\">7</text>
<text x=\"3400\" y=\"610\" font-size=\"110\" text-anchor=\"middle\">8</text>
<text x=\"3800\" y=\"610\" font-size=\"110\" text-anchor=\"middle\">9</text>
<text x=\"4200\" y=\"610\" font-size=\"110\" text-anchor=\"middle\">10</text>
<text x=\"4600\" y=\"610\" font-size=\"110\" text-anchor=\"middle\">11</text>
<text x=\"5000\" y=\"610\" font-size=\"110\" text-anchor=\"middle\">12</text>
<text x=\"5400\" y=\"610\" font-size=\"110\" text-anchor=\"middle\">13</text>
<text x=\"5800\" y=\"610\" font-size=\"110\" text-anchor=\"middle\">14</text>
<text x=\"6200\" y=\"610\" font-size=\"110\" text-anchor=\"middle\">15</text>
<text x=\"6600\" y=\"610\" font-size=\"110\" text-anchor=\"middle\">16</text>
<text x=\"7400\" y=\"610\" font-size=\"110\" text-anchor=\"end\">18</text>
</g>
<rect x=\"200\" y=\"1670\" width=\"140\" height=\"140\" class=\"part header\"/>
<text x=\"440\" y=\"1670\" dy=\"115\">header: offset 0, 0 bytes</text>
<text x=\"440\" y=\"1870\" dy=\"110\" font-size=\"110\" font-family=\"monospace\" xml:space=\"preserve\">alignment 1, ()</text>
<rect x=\"200\" y=\"2080\" width=\"140\" height=\"140\" class=\"part user-header\"/>
<text x=\"440\" y=\"2080\" dy=\"115\">user header: offset 0, 0 bytes</text>
<text x=\"440\" y=\"2280\" dy=\"110\" font-size=\"110\" font-family=\"monospace\" xml:space=\"preserve\">alignment 1, ()</text>
<rect x=\"200\" y=\"2490\" width=\"140\" height=\"140\" class=\"part payload\"/>
<text x=\"440\" y=\"2490\" dy=\"115\">payload: offset 0, 18 bytes</text>
<text x=\"440\" y=\"2690\" dy=\"110\" font-size=\"110\" font-family=\"monospace\" xml:space=\"preserve\">alignment 1, u8</text>
<text x=\"200\" y=\"2960\" dy=\"110\" font-size=\"110\" font-family=\"monospace\" xml:space=\"preserve\">18 elements of 1 byte: 16 one by one, and 2 more</text>
<text x=\"200\" y=\"3130\" dy=\"110\" font-size=\"110\" font-family=\"monospace\" xml:space=\"preserve\">data segment of a publisher: 34 chunks of 18 bytes, 612 bytes, of all 2 publishers: 1224 bytes</text>
</svg>
",
};

/// Elements too narrow to be told apart, of which each message has a thousand.
pub(crate) const NARROW: Picture = Picture {
    input: "publish-subscribe Fine
header 8 8 u64
user-header 0 1 ()
payload dynamic 1 1 u8
elements 1000
",
    begin: "<svg xmlns=\"http://www.w3.org/2000/svg\" viewBox=\"0 0 7600 3350\" width=\"760\" role=\"img\" aria-labelledby=\"title description\" font-family=\"sans-serif\" font-size=\"130\" class=\"ink\">
<title id=\"title\">Fine (publish-subscribe)</title>
<desc id=\"description\">A message of 1008 bytes: a header of 8 bytes at offset 0, a user header of 0 bytes at offset 8, a payload of 1000 elements at offset 8.</desc>
",
    end: "<rect class=\"page\" width=\"7600\" height=\"3350\"/>
<text x=\"200\" y=\"150\" dy=\"150\" font-size=\"150\" font-family=\"monospace\" xml:space=\"preserve\">Fine (publish-subscribe)</text>
<text x=\"200\" y=\"480\" dy=\"150\" font-size=\"150\">message: 1008 bytes, alignment 8</text>
<g transform=\"translate(0 720)\">
<rect x=\"200\" y=\"0\" width=\"57\" height=\"460\" class=\"part header\"/>
<rect x=\"257\" y=\"0\" width=\"7143\" height=\"460\" class=\"part payload\"/>
<text x=\"3828\" y=\"270\" font-size=\"110\" text-anchor=\"middle\" class=\"label\">1000 elements</text>
<text x=\"200\" y=\"610\" font-size=\"110\">0</text>
<text x=\"7400\" y=\"610\" font-size=\"110\" text-anchor=\"end\">1008</text>
</g>
<rect x=\"200\" y=\"1460\" width=\"140\" height=\"140\" class=\"part header\"/>
<text x=\"440\" y=\"1460\" dy=\"115\">header: offset 0, 8 bytes</text>
<text x=\"440\" y=\"1660\" dy=\"110\" font-size=\"110\" font-family=\"monospace\" xml:space=\"preserve\">alignment 8, u64</text>
<rect x=\"200\" y=\"1870\" width=\"140\" height=\"140\" class=\"part user-header\"/>
<text x=\"440\" y=\"1870\" dy=\"115\">user header: offset 8, 0 bytes</text>
<text x=\"440\" y=\"2070\" dy=\"110\" font-size=\"110\" font-family=\"monospace\" xml:space=\"preserve\">alignment 1, ()</text>
<rect x=\"200\" y=\"2280\" width=\"140\" height=\"140\" class=\"part payload\"/>
<text x=\"440\" y=\"2280\" dy=\"115\">payload: offset 8, 1000 bytes</text>
<text x=\"440\" y=\"2480\" dy=\"110\" font-size=\"110\" font-family=\"monospace\" xml:space=\"preserve\">alignment 1, u8</text>
<text x=\"200\" y=\"2750\" dy=\"110\" font-size=\"110\" font-family=\"monospace\" xml:space=\"preserve\">1000 elements of 1 byte</text>
<text x=\"200\" y=\"2920\" dy=\"110\" font-size=\"110\" font-family=\"monospace\" xml:space=\"preserve\">data segment of a publisher: 34 chunks of 1008 bytes, 34272 bytes, of all 2 publishers: 68544 bytes</text>
</svg>
",
};
