// The lexeme codes: a number word is its value (one is 1, ninety is 90), every other word and mark has its code here,
// in the order of the Rust's enum, and the literal n of k digits is NUM * k + n. 0 stands for what is past the end.

pub const A: u64 = 100;

pub const AN: u64 = 101;

pub const ON: u64 = 102;

pub const IN: u64 = 103;

pub const AT: u64 = 104;

pub const THE: u64 = 105;

pub const DASH: u64 = 106;

pub const TODAY: u64 = 107;

pub const TOMORROW: u64 = 108;

pub const YESTERDAY: u64 = 109;

pub const FROM: u64 = 110;

pub const NOW: u64 = 111;

pub const AND: u64 = 112;

pub const COMMA: u64 = 113;

pub const COLON: u64 = 114;

pub const DOT: u64 = 115;

pub const AFTER: u64 = 116;

pub const THIS: u64 = 117;

pub const NEXT: u64 = 118;

pub const MONDAY: u64 = 119;

pub const TUESDAY: u64 = 120;

pub const WEDNESDAY: u64 = 121;

pub const THURSDAY: u64 = 122;

pub const FRIDAY: u64 = 123;

pub const SATURDAY: u64 = 124;

pub const SUNDAY: u64 = 125;

pub const JANUARY: u64 = 126;

pub const FEBRUARY: u64 = 127;

pub const MARCH: u64 = 128;

pub const APRIL: u64 = 129;

pub const MAY: u64 = 130;

pub const JUNE: u64 = 131;

pub const JULY: u64 = 132;

pub const AUGUST: u64 = 133;

pub const SEPTEMBER: u64 = 134;

pub const OCTOBER: u64 = 135;

pub const NOVEMBER: u64 = 136;

pub const DECEMBER: u64 = 137;

pub const AM: u64 = 138;

pub const PM: u64 = 139;

pub const DAY: u64 = 140;

pub const WEEK: u64 = 141;

pub const HOUR: u64 = 142;

pub const MINUTE: u64 = 143;

pub const MONTH: u64 = 144;

pub const YEAR: u64 = 145;

pub const SLASH: u64 = 146;

pub const BEFORE: u64 = 147;

pub const AGO: u64 = 148;

pub const MIDNIGHT: u64 = 149;

pub const NOON: u64 = 150;

pub const ZERO: u64 = 151;

pub const HUNDRED: u64 = 152;

pub const THOUSAND: u64 = 153;

pub const MILLION: u64 = 154;

pub const BILLION: u64 = 155;

pub const LAST: u64 = 156;

pub const ST: u64 = 157;

pub const ND: u64 = 158;

pub const RD: u64 = 159;

pub const TH: u64 = 160;

pub const NUM: u64 = 4294967296;
