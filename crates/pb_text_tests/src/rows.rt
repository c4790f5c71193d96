//! Messages and their texts, as libprotobuf 3.21.12 prints them (`compare/text_peer.cc`). Those of the fewest
//! digits are as Python and Rust print these floats.

/// On each line a form, the bytes of a message in hexadecimal, and its text, with `|` for a line end. The
/// form has letters: `o` on one line, `u` in UTF-8, `h` without unknown records; `-` is the form of
/// `protoc --decode`. A line that begins with `#` says what the next one is about.
pub(crate) const ROWS: &str = r#"
# nothing
-  
# each kind of integer
- 08ffffffffffffffffff01108080808080808080800118ffffffff0f20ffffffffffffffffff01280130023d010000004102000000000000004801 i32: -1|i64: -9223372036854775808|u32: 4294967295|u64: 18446744073709551615|s32: -1|s64: 1|f32: 1|f64: 2|flag: true|
# extremes
- 08ffffffff0710ffffffffffffffff7f28ffffffff0f30ffffffffffffffffff014800 i32: 2147483647|i64: 9223372036854775807|s32: -2147483648|s64: -9223372036854775808|flag: false|
# letters after a backslash
- 62096122275c0a0d092f7a words: "a\"\'\\\n\r\t/z"|
# octal digits
- 620900011f7fc3a9e282ac words: "\000\001\037\177\303\251\342\202\254"|
# the same in UTF-8
u 620d00011f7fc3a9e282acf09f9880 words: "\000\001\037\177é€😀"|
# bytes in UTF-8
u 6a04e9ff0041 raw: "\351\377\000A"|
# a digit after an octal escape
- 62020137 words: "\0017"|
# names of enum values
- 700570fdffffffffffffffff01 color: NEG|
# an undeclared number of a closed enum
- 7007 14: 7|
# a list of numbers
- 82010300017f numbers: 0|numbers: 1|numbers: 127|
# a list of strings
- 8a0101618a01008a010162 lines: "a"|lines: ""|lines: "b"|
# messages in messages
- 7a077a020805920100 inner {|  inner {|    i32: 5|  }|  parts {|  }|}|
# a list of messages
- 92010208019201009201020802 parts {|  i32: 1|}|parts {|}|parts {|  i32: 2|}|
# a map by string
- 9a01050a016210019a01050a016110029a0100 by_name {|  key: ""|  value: 0|}|by_name {|  key: "a"|  value: 2|}|by_name {|  key: "b"|  value: 1|}|
# a map by number
- a20106080312020807a201020800 by_number {|  key: -2|  value {|    i32: 7|  }|}|by_number {|  key: 0|  value {|  }|}|
# a map by bool
- aa010508011201ffaa01020800 by_flag {|  key: false|  value: ""|}|by_flag {|  key: true|  value: "\377"|}|
# groups
- b3010801b401bb010a0178bc01bb01bc01 One {|  a: 1|}|Many {|  b: "x"|}|Many {|}|
# a oneof
- c00100 x: 0|
# another member
- c00101ca01017a y: "z"|
# a double
- 59000000000000f03f real: 1|
# a double
- 599a9999999999b93f real: 0.1|
# a double
- 5900000000000004c0 real: -2.5|
# a double
- 590000901ec4bcd642 real: 100000000000000|
# a double
- 5900003426f56b0c43 real: 1e+15|
# a double
- 5940de77832112dc42 real: 123456789012345|
# a double
- 5981e97df41022b143 real: 1.2345678901234568e+18|
# a double
- 59c4a5b52e2aee4543 real: 12345678901234568|
# a double
- 590000000000004043 real: 9007199254740992|
# a double
- 592d431cebe2361a3f real: 0.0001|
# a double
- 59f168e388b5f8e43e real: 1e-05|
# a double
- 5968dce56c4b2e203f real: 0.00012345|
# a double
- 59355800662deb417e real: 1.5e+300|
# a double
- 590000000000001000 real: 2.2250738585072014e-308|
# a double
- 59343333333333d33f real: 0.30000000000000004|
# a double
- 590000000000000080 real: -0|
# a double
- 59000000000000f07f real: inf|
# a double
- 59000000000000f0ff real: -inf|
# a double
- 59000000000000f87f real: nan|
# a float
- 550000803f single: 1|
# a float
- 55cdcccc3d single: 0.1|
# a float
- 550050c347 single: 100000|
# a float
- 5500247449 single: 1e+06|
# a float
- 5538b49649 single: 1234567|
# a float
- 550000804b single: 16777216|
# a float
- 55286b6e4e single: 1e+09|
# a float
- 550020f147 single: 123456|
# a float
- 5517b7d138 single: 0.0001|
# a float
- 55acc52737 single: 1e-05|
# a float
- 550000807f single: inf|
# a float
- 550000c07f single: nan|
# a float of nine digits
- 551be7c865 single: 1.18592055e+23|
# a float of nine digits
- 554fc67553 single: 1.05559405e+12|
# a float of nine digits
- 552fe96d14 single: 1.20114296e-26|
# doubles in a list
- d20118000000000000f03f000000000000e03f92d54d06cff080c4 reals: 1|reals: 0.5|reals: -1e+22|
# on one line
o 08057a0408067a009201009a01030a016b i32: 5 inner { i32: 6 inner { } } parts { } by_name { key: "k" value: 0 } 
# unknown records of each form
- a0389601ad3801020304b1380001020304050607ba380474657874c23800cb380802cc38 900: 150|901: 0x04030201|902: 0x0706050403020100|903: "text"|904: ""|905 {|  1: 2|}|
# unknown records left out
h 0805a03896017a03a03801 i32: 5|inner {|}|
# unknown records on one line
o a0389601aa38020802cb38cc38 900: 150 901 { 1: 2 } 905 { } 
# a known number of another wire type
- 0a0178 1: "x"|
# messages on ten levels
- a2381a12181216121412121210120e120c120a12081206120412020801 900 {|  2 {|    2 {|      2 {|        2 {|          2 {|            2 {|              2 {|                2 {|                  2 {|                    2: "\022\004\022\002\010\001"|                  }|                }|              }|            }|          }|        }|      }|    }|  }|}|
# groups that nest too deep
- a23818131313131313131313131308011414141414141414141414 900: "\023\023\023\023\023\023\023\023\023\023\023\010\001\024\024\024\024\024\024\024\024\024\024\024"|
# groups on ten levels
- a2381613131313131313131313080114141414141414141414 900 {|  2 {|    2 {|      2 {|        2 {|          2 {|            2 {|              2 {|                2 {|                  2 {|                    2 {|                      1: 1|                    }|                  }|                }|              }|            }|          }|        }|      }|    }|  }|}|
# groups and messages
- a238181216121412121210120e120c131313130a02080114141414 900 {|  2 {|    2 {|      2 {|        2 {|          2 {|            2 {|              2 {|                2 {|                  2 {|                    2 {|                      1: "\010\001"|                    }|                  }|                }|              }|            }|          }|        }|      }|    }|  }|}|
# a message below twelve groups
- a338a338a338a338a338a338a338a338a338a338a338a3383a020801a438a438a438a438a438a438a438a438a438a438a438a438 900 {|  900 {|    900 {|      900 {|        900 {|          900 {|            900 {|              900 {|                900 {|                  900 {|                    900 {|                      900 {|                        7: "\010\001"|                      }|                    }|                  }|                }|              }|            }|          }|        }|      }|    }|  }|}|
# a message below nine groups
- a338a338a338a338a338a338a338a338a3383a020801a438a438a438a438a438a438a438a438a438 900 {|  900 {|    900 {|      900 {|        900 {|          900 {|            900 {|              900 {|                900 {|                  7 {|                    1: 1|                  }|                }|              }|            }|          }|        }|      }|    }|  }|}|
# an end tag alone
- a238010c 900: "\014"|
# a string in UTF-8 that is unknown
u a23802c3a9 900: "\303\251"|
# an unknown record in an entry
- a2010708011203a03801 by_number {|  key: -1|  value {|    900: 1|  }|}|
# the fewest digits of a double
- 59555555555555d53f real: 0.3333333333333333|
# the fewest digits of a double
- 590100000000000000 real: 5e-324|
# the fewest digits of a double
- 59ffffffffffffef7f real: 1.7976931348623157e+308|
# the fewest digits of a float
- 55abaaaa3e single: 0.33333334|
# the fewest digits of a float
- 55ffff7f7f single: 3.4028235e+38|
# the fewest digits of a float
- 5500008000 single: 1.1754944e-38|
"#;
