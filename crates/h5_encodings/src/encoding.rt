//! The encodings. `write_tables.py` writes this file.
ghost use Rattle.std.specs.Prelude.{◌≡◌};
ghost use Rattle.h5_encodings.specs.Names.{name_of, single_byte_name};

/// An encoding with one character for each byte (Encoding Standard, section 9, "Legacy single-byte encodings").
#[derive(Clone, Copy, Debug, PartialEq, Eq)]
pub enum SingleByte {
    Ibm866,
    Iso8859_2,
    Iso8859_3,
    Iso8859_4,
    Iso8859_5,
    Iso8859_6,
    Iso8859_7,
    Iso8859_8,
    Iso8859_8I,
    Iso8859_10,
    Iso8859_13,
    Iso8859_14,
    Iso8859_15,
    Iso8859_16,
    Koi8R,
    Koi8U,
    Macintosh,
    Windows874,
    Windows1250,
    Windows1251,
    Windows1252,
    Windows1253,
    Windows1254,
    Windows1255,
    Windows1256,
    Windows1257,
    Windows1258,
    XMacCyrillic,
}

/// An encoding (Encoding Standard, section 4.2, "Names and labels").
#[derive(Clone, Copy, Debug, PartialEq, Eq)]
pub enum Encoding {
    Utf8,
    Gbk,
    Gb18030,
    Big5,
    EucJp,
    Iso2022Jp,
    ShiftJis,
    EucKr,
    Replacement,
    Utf16be,
    Utf16le,
    XUserDefined,
    SingleByte(SingleByte),
}

impl SingleByte {
    /// Returns the name, as the standard writes it.
    pub fn name(self) -> &'static str
        ensures { result.now ≡ single_byte_name self }
    {
        match self {
            SingleByte::Ibm866 => "IBM866",
            SingleByte::Iso8859_2 => "ISO-8859-2",
            SingleByte::Iso8859_3 => "ISO-8859-3",
            SingleByte::Iso8859_4 => "ISO-8859-4",
            SingleByte::Iso8859_5 => "ISO-8859-5",
            SingleByte::Iso8859_6 => "ISO-8859-6",
            SingleByte::Iso8859_7 => "ISO-8859-7",
            SingleByte::Iso8859_8 => "ISO-8859-8",
            SingleByte::Iso8859_8I => "ISO-8859-8-I",
            SingleByte::Iso8859_10 => "ISO-8859-10",
            SingleByte::Iso8859_13 => "ISO-8859-13",
            SingleByte::Iso8859_14 => "ISO-8859-14",
            SingleByte::Iso8859_15 => "ISO-8859-15",
            SingleByte::Iso8859_16 => "ISO-8859-16",
            SingleByte::Koi8R => "KOI8-R",
            SingleByte::Koi8U => "KOI8-U",
            SingleByte::Macintosh => "macintosh",
            SingleByte::Windows874 => "windows-874",
            SingleByte::Windows1250 => "windows-1250",
            SingleByte::Windows1251 => "windows-1251",
            SingleByte::Windows1252 => "windows-1252",
            SingleByte::Windows1253 => "windows-1253",
            SingleByte::Windows1254 => "windows-1254",
            SingleByte::Windows1255 => "windows-1255",
            SingleByte::Windows1256 => "windows-1256",
            SingleByte::Windows1257 => "windows-1257",
            SingleByte::Windows1258 => "windows-1258",
            SingleByte::XMacCyrillic => "x-mac-cyrillic",
        }
    }
}

impl Encoding {
    /// Returns the name, as the standard writes it.
    pub fn name(self) -> &'static str
        ensures { result.now ≡ name_of self }
    {
        match self {
            Encoding::Utf8 => "UTF-8",
            Encoding::Gbk => "GBK",
            Encoding::Gb18030 => "gb18030",
            Encoding::Big5 => "Big5",
            Encoding::EucJp => "EUC-JP",
            Encoding::Iso2022Jp => "ISO-2022-JP",
            Encoding::ShiftJis => "Shift_JIS",
            Encoding::EucKr => "EUC-KR",
            Encoding::Replacement => "replacement",
            Encoding::Utf16be => "UTF-16BE",
            Encoding::Utf16le => "UTF-16LE",
            Encoding::XUserDefined => "x-user-defined",
            Encoding::SingleByte(encoding) => encoding.name(),
        }
    }
}
