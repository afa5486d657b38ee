//! Bytes in any encoding, and the encodings that pages declare.
use h5_encodings::{Decoder, Encoding, EncodingOpts, SingleByte, Source, sniff};
use std::alloc::{AllocError, Global};
use std::test::Fail;

// Labels, bytes, and their texts.
#[rattlefmt::skip]
static TEXTS: [(&str, &[u8], &str); 59] = [
    // Single bytes are read by their tables.
    ("windows-1252", b"\x93a\x94\x81", "\u{201C}a\u{201D}\u{81}"),
    ("windows-1253", b"\xE1\xFF", "\u{3B1}\u{FFFD}"),
    ("x-mac-cyrillic", b"\x80\xFF", "\u{410}\u{20AC}"),
    // UTF-16 is read across chunks.
    ("utf-16", b"a\0\x3D\xD8\x00\xDE", "a\u{1F600}"),
    ("utf-16le", b"a\0\0\xDC", "a\u{FFFD}"),
    ("utf-16be", b"\xD8\x3D\0a\xDC\x00\xD8", "\u{FFFD}a\u{FFFD}\u{FFFD}"),
    // EUC-KR is read across chunks.
    ("euc-kr", b"a\xC7\xD1\xB1\xDB", "a\u{D55C}\u{AE00}"),
    ("ks_c_5601-1987", b"\xC7<\xC9\xFF\x80\xC7", "\u{FFFD}<\u{FFFD}\u{FFFD}\u{FFFD}"),
    // Shift_JIS is read across chunks.
    ("shift_jis", b"\x93\xFA\x96{\xB1\x80\\", "\u{65E5}\u{672C}\u{FF71}\u{80}\\"),
    ("sjis", b"\xF0\x40\xF9\xFC", "\u{E000}\u{E757}"),
    ("windows-31j", b"\x82<\x81\xFD\xA0\x93", "\u{FFFD}<\u{FFFD}\u{FFFD}\u{FFFD}"),
    // EUC-JP is read across chunks.
    ("euc-jp", b"\xC6\xFC\x8E\xB1\x8F\xB0\xA1", "\u{65E5}\u{FF71}\u{4E02}"),
    ("x-euc-jp", b"\x8F\xA1<\x8E\xE0\xC6a\x80\x8F\xB0", "\u{FFFD}<\u{FFFD}\u{FFFD}a\u{FFFD}\u{FFFD}"),
    // Escapes say how ISO-2022-JP is read.
    ("iso-2022-jp", b"a\\~\x0E\x0F\x80", "a\\~\u{FFFD}\u{FFFD}\u{FFFD}"),
    ("iso-2022-jp", b"\x1B(J\\~a\x0E", "\u{A5}\u{203E}a\u{FFFD}"),
    ("iso-2022-jp", b"\x1B(I1` ", "\u{FF71}\u{FFFD}\u{FFFD}"),
    ("iso-2022-jp", b"\x1B$BF|K\\\x1B(Ba", "\u{65E5}\u{672C}a"),
    ("iso-2022-jp", b"\x1B$@F|\nF\x80F\x0E\x1B(B", "\u{65E5}\u{FFFD}\u{FFFD}\u{FFFD}"),
    ("iso-2022-jp", b"\x1B$BF\x1B(Ba", "\u{FFFD}a"),
    // Two escapes in a row are an error.
    ("csiso2022jp", b"\x1B(J\x1B(Ba", "\u{FFFD}a"),
    ("csiso2022jp", b"\x1B(B\x1B(B\x1B(B", "\u{FFFD}\u{FFFD}"),
    ("csiso2022jp", b"\x1B(I\x7F\x1B(J]", "\u{FFFD}]"),
    // No escape is read again.
    ("iso-2022-jp", b"\x1Bx\x1B\x1B(Bb", "\u{FFFD}x\u{FFFD}b"),
    ("iso-2022-jp", b"\x1B(x\x1B$x", "\u{FFFD}(x\u{FFFD}$x"),
    ("iso-2022-jp", b"\x1B(J\x1B(\\", "\u{FFFD}(\u{A5}"),
    ("iso-2022-jp", b"\x1B(I\x1B(x\x1B$x", "\u{FFFD}\u{FF68}\u{FFFD}\u{FFFD}\u{FF64}\u{FFFD}"),
    ("iso-2022-jp", b"\x1B$B\x1B(x\x1B$F\x1B(\n", "\u{FFFD}\u{FFFD}\u{FFFD}\u{3066}\u{FFFD}\u{FFFD}"),
    ("iso-2022-jp", b"\x1B$\x1B(Ba", "\u{FFFD}$a"),
    ("iso-2022-jp", b"\x1B$B\x1B$\x1B(Ba", "\u{FFFD}\u{FFFD}a"),
    // ISO-2022-JP ends by its mode.
    ("iso-2022-jp", b"\x1B", "\u{FFFD}"),
    ("iso-2022-jp", b"\x1B$", "\u{FFFD}$"),
    ("iso-2022-jp", b"\x1B(", "\u{FFFD}("),
    ("iso-2022-jp", b"\x1B(J\x1B$", "\u{FFFD}$"),
    ("iso-2022-jp", b"\x1B(I\x1B$", "\u{FFFD}\u{FF64}"),
    ("iso-2022-jp", b"\x1B(I\x1B(", "\u{FFFD}\u{FF68}"),
    ("iso-2022-jp", b"\x1B$B\x1B$", "\u{FFFD}\u{FFFD}"),
    ("iso-2022-jp", b"\x1B$B\x1B(", "\u{FFFD}\u{FFFD}"),
    ("iso-2022-jp", b"\x1B$BF", "\u{FFFD}"),
    ("iso-2022-jp", b"\x1B$B\x1B", "\u{FFFD}"),
    ("iso-2022-jp", b"\x1B$B", ""),
    // Big5 is read across chunks.
    ("big5", b"\xA4\xA4\xA4\xE5\x87\x40", "\u{4E2D}\u{6587}\u{43F0}"),
    ("big5-hkscs", b"\x88b\x88d\x88\xA3\x88\xA5", "\u{CA}\u{304}\u{CA}\u{30C}\u{EA}\u{304}\u{EA}\u{30C}"),
    ("cn-big5", b"\xA4<\xA4\x80\x80\xFF\xA4", "\u{FFFD}<\u{FFFD}\u{FFFD}\u{FFFD}\u{FFFD}"),
    // GBK is read as gb18030.
    ("gbk", b"a\xD6\xD0\x80\xFF", "a\u{4E2D}\u{20AC}\u{FFFD}"),
    ("gb18030", b"\xA2\xE3\xA3\xA0\xA8\xBC", "\u{20AC}\u{3000}\u{1E3F}"),
    ("gbk", b"\xA6\xD9\xA6\xF3\xFEY\xFE\xA0", "\u{FE10}\u{FE19}\u{9FB4}\u{9FBB}"),
    // Four bytes are read by the ranges.
    ("gb18030", b"\x810\x810\x815\xF47\x841\xA49", "\u{80}\u{E7C7}\u{FFFF}"),
    ("gbk", b"\x900\x810\xE32\x9A5", "\u{10000}\u{10FFFF}"),
    ("gb18030", b"\x841\xA50\x8F9\xFE9\xE32\x9A6", "\u{FFFD}\u{FFFD}\u{FFFD}"),
    // The digits of no character stand for themselves.
    ("gb18030", b"\x81<\x81\x7F\x81\xFF", "\u{FFFD}<\u{FFFD}\u{7F}\u{FFFD}"),
    ("gb18030", b"\x810<\x810\x80\x810\xFF\x8101", "\u{FFFD}0<\u{FFFD}0\u{20AC}\u{FFFD}0\u{FFFD}\u{FFFD}01"),
    ("gb18030", b"\x810\x81<\x810\xD6\xD0\x810\x81\xFF", "\u{FFFD}0\u{FFFD}<\u{FFFD}0\u{4E2D}\u{FFFD}0\u{FFFD}"),
    ("gb18030", b"\x81", "\u{FFFD}"),
    ("gb18030", b"\x810", "\u{FFFD}"),
    ("gb18030", b"\x810\x81", "\u{FFFD}"),
    // The other encodings are read.
    ("utf8", b"\xC3\xA9\xC3", "\u{E9}\u{FFFD}"),
    ("x-user-defined", b"a\x80\xFF", "a\u{F780}\u{F7FF}"),
    ("iso-2022-kr", b"abc", "\u{FFFD}"),
    ("iso-2022-kr", b"", ""),
];

// Adds the text of bytes that come in two chunks.
fn decode(
    decoder: &mut Decoder,
    text: &mut String,
    front: &[u8],
    back: &[u8],
) -> Result<(), AllocError> {
    text.push_str(decoder.decode(front)?.as_str())?;
    text.push_str(decoder.decode(back)?.as_str())
}

// Returns true if a decoder counts the errors that its text shows. Those of UTF-8 it doesn't count.
fn counts_errors(decoder: &Decoder, text: &str) -> bool {
    let count = text.chars().filter(|c| *c == '\u{FFFD}').count();
    let counted = decoder.replacement_count();
    let is_utf8 = decoder.encoding() == Encoding::Utf8;
    decoder.has_errors() == (counted > 0) && (is_utf8 || counted == count as u64)
}

// Returns true if bytes have a text, however they are split in two.
fn has_text(
    alloc: Global,
    encoding: Encoding,
    bytes: &[u8],
    expected: &str,
) -> Result<bool, AllocError> {
    for at in 0..bytes.len() + 1 {
        let (front, back) = bytes.split_at(at);
        let mut decoder = Decoder::new(alloc, encoding);
        let mut text = String::new(alloc);
        let decoded = decode(&mut decoder, &mut text, front, back);
        let is_counted = counts_errors(&decoder, text.as_str());
        let end = decoder.finish();
        decoded?;
        text.push_str(end)?;
        if !is_counted || text.as_str() != expected {
            return Ok(false);
        }
    }
    Ok(true)
}

#[test]
fn bytes_are_read_by_their_encodings(rt: HostRuntime) -> Result<(), Fail> {
    let alloc = rt.alloc();
    for &(label, bytes, expected) in &TEXTS {
        let encoding = Encoding::for_label(label.as_bytes()).ok_or("no encoding")?;
        assert!(rt;
            has_text(alloc, encoding, bytes, expected)?,
            "{label}: {expected}"
        );
    }
    Ok(())
}

#[test]
fn labels_name_encodings(rt: HostRuntime) {
    for &(label, name) in &[
        (" Latin1\n", "windows-1252"),
        ("hz-gb-2312", "replacement"),
        ("GB2312", "GBK"),
        ("utf 8", ""),
    ] {
        let found = Encoding::for_label(label.as_bytes());
        assert_eq!(rt; found.map_or("", Encoding::name), name);
    }
    assert_eq!(rt; SingleByte::Koi8R.name(), "KOI8-R");
}

// The encoding of bytes by its name, and how it is known.
fn sniffed(
    alloc: Global,
    opts: EncodingOpts,
    bytes: &[u8],
) -> Result<(&'static str, Source), AllocError> {
    let (encoding, source) = sniff(alloc, opts, bytes)?;
    Ok((encoding.name(), source))
}

// The encoding of the transport, the number of spaces before the bytes, and the bytes; and the name of their encoding, and its source.
type Known = (Option<Encoding>, usize, &'static [u8], &'static str, Source);

const IBM866: Option<Encoding> = Some(Encoding::SingleByte(SingleByte::Ibm866));

// A byte order mark comes before the transport, and that before the page. A page is read up to its 1,024th byte.
#[rattlefmt::skip]
const KNOWN: [Known; 6] = [
    (IBM866, 0, b"\xFE\xFF<meta charset=koi8-r>", "UTF-16BE", Source::Mark),
    (IBM866, 0, b"<meta charset=koi8-r>", "IBM866", Source::Transport),
    (None, 0, b"<meta charset=koi8-r>", "KOI8-R", Source::Meta),
    (None, 0, b"<p>", "windows-1252", Source::Default),
    (None, 1003, b"<meta charset=koi8-r>", "KOI8-R", Source::Meta),
    (None, 1004, b"<meta charset=koi8-r>", "windows-1252", Source::Default),
];

// Bytes after the given number of spaces.
fn after_spaces(alloc: Global, count: usize, bytes: &[u8]) -> Result<Vec<u8>, AllocError> {
    let mut page = Vec::new(alloc);
    for _space in 0..count {
        page.push(b' ')?;
    }
    page.extend_from_slice(bytes)?;
    Ok(page)
}

#[test]
fn encodings_are_known_in_an_order(rt: HostRuntime) -> Result<(), Fail> {
    let alloc = rt.alloc();
    for &(transport, spaces, bytes, name, source) in &KNOWN {
        let opts = EncodingOpts {
            transport,
            ..EncodingOpts::default()
        };
        let page = after_spaces(alloc, spaces, bytes)?;
        assert!(rt; sniffed(alloc, opts, page.as_slice())? == (name, source));
    }
    Ok(())
}

// Pages, and the names of the encodings that they declare, if any.
#[rattlefmt::skip]
static CASES: [(&str, &str); 106] = [
    ("", ""),
    ("plain text", ""),
    ("<meta charset=koi8-r>", "KOI8-R"),
    ("<META CHARSET=KOI8-R>", "KOI8-R"),
    ("<meta charset='koi8-r'>", "KOI8-R"),
    ("<meta charset=\"koi8-r\">", "KOI8-R"),
    ("<meta charset=\" koi8-r\t\">", "KOI8-R"),
    ("<meta\tcharset=koi8-r>", "KOI8-R"),
    ("<meta/charset=koi8-r>", "KOI8-R"),
    ("<meta//charset=koi8-r>", "KOI8-R"),
    ("<metacharset=koi8-r>", ""),
    ("<meta\x0bcharset=koi8-r>", ""),
    ("<meta charset = koi8-r >", "KOI8-R"),
    ("<meta charset\n=\nkoi8-r\n>", "KOI8-R"),
    ("<meta charset=koi8-r", ""),
    ("<meta charset=koi8-r ", ""),
    ("<meta charset=\"koi8-r\"", ""),
    ("<meta charset=\"koi8-r\" x", ""),
    ("<meta charset=\"koi8-r\" x>", "KOI8-R"),
    ("<meta charset=koi8-r/>", ""),
    ("<meta charset='koi8-r'/>", "KOI8-R"),
    ("<meta charset=nonsense><meta charset=koi8-r>", "KOI8-R"),
    ("<meta charset=><meta charset=koi8-r>", "KOI8-R"),
    ("<meta charset><meta charset=koi8-r>", "KOI8-R"),
    ("<meta charset=koi8-r charset=ibm866>", "KOI8-R"),
    ("<meta charset=nonsense charset=ibm866>", ""),
    ("<meta charset=utf-16>", "UTF-8"),
    ("<meta charset=utf-16be>", "UTF-8"),
    ("<meta charset=x-user-defined>", "windows-1252"),
    ("<meta charset=utf-7>", ""),
    ("<meta charset=iso-2022-kr>", "replacement"),
    ("<meta charset=latin1>", "windows-1252"),
    ("<meta charset=iso-8859-8-i>", "ISO-8859-8-I"),
    ("<meta http-equiv=content-type content=\"text/html; charset=koi8-r\">", "KOI8-R"),
    ("<meta content=\"text/html; charset=koi8-r\" http-equiv=Content-Type>", "KOI8-R"),
    ("<meta http-equiv=\"CONTENT-TYPE\" content=\"TEXT/HTML; CHARSET=KOI8-R\">", "KOI8-R"),
    ("<meta content=\"text/html; charset=koi8-r\">", ""),
    ("<meta http-equiv=refresh content=\"text/html; charset=koi8-r\">", ""),
    ("<meta http-equiv=content-type content=\"text/html; charset koi8-r\">", ""),
    ("<meta http-equiv=content-type content=\"charset charset = koi8-r\">", "KOI8-R"),
    ("<meta http-equiv=content-type content=\"charset='koi8-r'\">", "KOI8-R"),
    ("<meta http-equiv=content-type content=\"charset='koi8-r\">", ""),
    ("<meta http-equiv=content-type content=\"charset=koi8-r;ibm866\">", "KOI8-R"),
    ("<meta http-equiv=content-type content=\"charset=\">", ""),
    ("<meta http-equiv=content-type content=\"charset=k\">", ""),
    ("<meta http-equiv=content-type content=\"charset=nonsense\" charset=ibm866>", "IBM866"),
    ("<meta charset=ibm866 http-equiv=content-type content=\"charset=koi8-r\">", "IBM866"),
    ("<meta http-equiv=content-type content=\"charset=koi8-r\" charset=ibm866>", "IBM866"),
    ("<meta http-equiv=content-type content=\"charset=koi8-r\" charset=nonsense>", ""),
    ("<meta charset=nonsense http-equiv=content-type content=\"charset=koi8-r\">", ""),
    ("<meta charset=nonsense content=\"charset=koi8-r\">", ""),
    ("<meta http-equiv=x http-equiv=content-type content=\"charset=koi8-r\">", ""),
    ("<meta content=\"x\" content=\"charset=koi8-r\" http-equiv=content-type>", ""),
    ("<!-- <meta charset=koi8-r> -->", ""),
    ("<!-- x --><meta charset=koi8-r>", "KOI8-R"),
    ("<!--><meta charset=koi8-r>", "KOI8-R"),
    ("<!---><meta charset=koi8-r>", "KOI8-R"),
    ("<!-- --!><meta charset=koi8-r>", ""),
    ("<!- ><meta charset=koi8-r>", "KOI8-R"),
    ("<! <meta charset=koi8-r>", ""),
    ("<!x><meta charset=koi8-r>", "KOI8-R"),
    ("<? <meta charset=koi8-r><meta charset=koi8-r>", "KOI8-R"),
    ("</ <meta charset=koi8-r>", ""),
    ("</p <meta charset=koi8-r>>", ""),
    ("<p><meta charset=koi8-r>", "KOI8-R"),
    ("<p title='<meta charset=koi8-r>'>", ""),
    ("<p title=<meta charset=koi8-r>", ""),
    ("<p <meta charset=koi8-r>", ""),
    ("<p/<meta charset=koi8-r>", ""),
    ("<p\n=\n<meta charset=koi8-r>", ""),
    ("<p =<meta charset=koi8-r>", ""),
    ("<p = <meta charset=koi8-r>", ""),
    ("<p a='<meta charset=koi8-r>", ""),
    ("<3<meta charset=koi8-r>", "KOI8-R"),
    ("<<meta charset=koi8-r>", "KOI8-R"),
    ("<<<meta charset=koi8-r>", "KOI8-R"),
    ("<p<<meta charset=koi8-r>", ""),
    ("<script>'<meta charset=koi8-r>'</script>", "KOI8-R"),
    ("<title><meta charset=koi8-r></title>", "KOI8-R"),
    ("<body><meta charset=koi8-r>", "KOI8-R"),
    ("<plaintext><meta charset=koi8-r>", "KOI8-R"),
    ("<xmeta charset=koi8-r>", ""),
    ("<a meta charset=koi8-r>", ""),
    ("<meta name=x><meta charset=koi8-r>", "KOI8-R"),
    ("<meta><meta charset=koi8-r>", "KOI8-R"),
    ("<meta a=b<meta charset=koi8-r><meta charset=koi8-r>", "KOI8-R"),
    ("<meta x='>' charset=koi8-r>", "KOI8-R"),
    ("<meta =charset=koi8-r>", ""),
    ("<meta x= charset=koi8-r>", ""),
    ("<meta x=\x0ccharset=koi8-r>", ""),
    ("<?xml version='1.0' encoding='koi8-r'?>", "KOI8-R"),
    ("<?xml version=\"1.0\" encoding=\"koi8-r\"?><p>", "KOI8-R"),
    ("<?xml version=\"1.0\" encoding=\"koi8-r\"?><meta charset=ibm866>", "IBM866"),
    (" <?xml version=\"1.0\" encoding=\"koi8-r\"?>", ""),
    ("<?XML version=\"1.0\" encoding=\"koi8-r\"?>", ""),
    ("<?xml encoding = 'koi8-r' >", "KOI8-R"),
    ("<?xml encoding=koi8-r?>", ""),
    ("<?xml encoding='koi8-r", ""),
    ("<?xml encoding=' koi8-r'?>", ""),
    ("<?xml encoding='utf-16'?>", "UTF-8"),
    ("<?xmlencoding='koi8-r'>", "KOI8-R"),
    ("<?xml x='encoding' encoding='koi8-r'>", ""),
    ("<\0?\0x\0m\0l\0", "UTF-16LE"),
    ("\0<\0?\0x\0m\0l", "UTF-16BE"),
    ("<\0?\0x", ""),
    ("<\0m\0e\0t\0a\0", ""),
];

#[test]
fn pages_name_their_encodings(rt: HostRuntime) -> Result<(), Fail> {
    let alloc = rt.alloc();
    for &(page, expected) in &CASES {
        let (name, source) = sniffed(alloc, EncodingOpts::default(), page.as_bytes())?;
        let named = if source == Source::Default { "" } else { name };
        assert_eq!(rt; named, expected, "{page}");
    }
    Ok(())
}
