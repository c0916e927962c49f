// Causes of transmission: IEC 60870-5-101, 7.2.3, under the names of `cot.rs`. They stay octets: any octet comes as a cause, so an enum would need a
// case for all the others, and be no plainer.

pub const SPONTANEOUS_DATA: u8 = 3;

pub const INITIATED: u8 = 4;

pub const REQUEST: u8 = 5;

pub const ACTIVATION: u8 = 6;

pub const ACTIVATION_CONFIRMATION: u8 = 7;

pub const DEACTIVATION: u8 = 8;

pub const DEACTIVATION_CONFIRMATION: u8 = 9;

pub const ACTIVATION_TERMINATION: u8 = 10;

pub const INTERROGATION_GENERAL: u8 = 20;

pub const COUNTER_INTERROGATION_GENERAL: u8 = 37;
