// Type identifications that the rules name one by one: IEC 60870-5-101, 7.2.1, under the names of `types_id.rs`. The counters' stand in `model`. They stay
// octets: any octet comes as a type, so an enum would need a case for all the others, and be no plainer.

pub const M_EI_NA_1: u8 = 70;

pub const C_IC_NA_1: u8 = 100;

pub const C_CI_NA_1: u8 = 101;

pub const C_RD_NA_1: u8 = 102;

pub const C_CS_NA_1: u8 = 103;

pub const C_TS_NA_1: u8 = 104;

pub const C_RP_NA_1: u8 = 105;

pub const C_TS_TA_1: u8 = 107;
