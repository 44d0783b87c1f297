// The CRC of a section: ISO/IEC 13818-1, Annex A. This crate has its definition and its laws; the code is in
// `crc_register` (byte by byte) and `crc_words` (by words of eight bytes).
#![tactic(auto)]
