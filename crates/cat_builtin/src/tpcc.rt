// The catalogue `tpcc`: eleven tables, and two procedures.

/// Its text.
pub const TPCC: &str = r#"{"tables":[
{"name":"warehouse","key":["int"],"cols":["int","int"]},
{"name":"district","key":["int","int"],"cols":["int","int","int"]},
{"name":"customer","key":["int","int","int"],"cols":["int","int","int","int","int","int","int","text"]},
{"name":"history","key":["int"],"cols":["int","int","int","int","int","int","int"]},
{"name":"new_order","key":["int","int","int"],"cols":[]},
{"name":"orders","key":["int","int","int"],"cols":["int","int","int","int","int"]},
{"name":"order_line","key":["int","int","int","int"],"cols":["int","int","int","int","int"]},
{"name":"item","key":["int"],"cols":["int","int"]},
{"name":"stock","key":["int","int"],"cols":["int","int","int","int","int"]},
{"name":"name_count","key":["int","int","int"],"cols":["int"]},
{"name":"name_place","key":["int","int","int","int"],"cols":["int"]}
],"procs":[
{"name":"neworder","args":["int","int","int","int","list3"],
"regs":["int","int","int","int","int","int","int","int","int","int","int","int","int","text",
  "int","int","int","int","int","int","int","int","int","int","int","int"],
"body":[
  ["get","warehouse",[["arg",0]],[0,1]],
  ["get","district",[["arg",0],["arg",1]],[2,3,4]],
  ["let",5,["reg",4]],
  ["put","district",[["arg",0],["arg",1]],[["reg",2],["reg",3],["add",["reg",4],1]]],
  ["get","customer",[["arg",0],["arg",1],["arg",2]],[6,7,8,9,10,11,12,13]],
  ["let",14,1],
  ["each",4,[["if",["ne",["item",1],["arg",0]],[["let",14,0]],[]]]],
  ["put","orders",[["arg",0],["arg",1],["reg",5]],[["arg",2],["arg",3],0,["len",4],["reg",14]]],
  ["put","new_order",[["arg",0],["arg",1],["reg",5]],[]],
  ["give",["reg",5]],
  ["let",15,0],
  ["let",16,0],
  ["each",4,[
    ["let",16,["add",["reg",16],1]],
    ["need","item",[["item",0]],[17,18],1],
    ["get","stock",[["item",1],["item",0]],[19,20,21,22,23]],
    ["if",["le",10,["sub",["reg",19],["item",2]]],[
      ["let",24,["sub",["reg",19],["item",2]]]
    ],[
      ["let",24,["add",["sub",["reg",19],["item",2]],91]]
    ]],
    ["put","stock",[["item",1],["item",0]],
      [["reg",24],["add",["reg",20],["item",2]],["add",["reg",21],1],
      ["add",["reg",22],["ne",["item",1],["arg",0]]],["reg",23]]],
    ["let",25,["mul",["item",2],["reg",17]]],
    ["let",15,["add",["reg",15],["reg",25]]],
    ["put","order_line",[["arg",0],["arg",1],["reg",5],["reg",16]],
      [["item",0],["item",1],0,["item",2],["reg",25]]],
    ["give",["reg",24]],
    ["if",["and",["eq",["reg",18],1],["eq",["reg",23],1]],[["give","B"]],[["give","G"]]],
    ["give",["reg",25]]
  ]],
  ["give",
    ["muldiv",["reg",15],["mul",["sub",10000,["reg",9]],["add",["add",10000,["reg",0]],["reg",2]]],
    100000000]]
]},
{"name":"payment","args":["int","int","int","int","int","int","int","int"],
"regs":["int","int","int","int","int","int","int","int","int","int","int","int","int","int","text","text"],
"body":[
  ["get","warehouse",[["arg",0]],[0,1]],
  ["put","warehouse",[["arg",0]],[["reg",0],["add",["reg",1],["arg",6]]]],
  ["get","district",[["arg",0],["arg",1]],[2,3,4]],
  ["put","district",[["arg",0],["arg",1]],[["reg",2],["add",["reg",3],["arg",6]],["reg",4]]],
  ["if",["arg",4],[
    ["need","name_count",[["arg",2],["arg",3],["arg",5]],[5],2],
    ["get","name_place",[["arg",2],["arg",3],["arg",5],["div",["add",["reg",5],1],2]],[6]]
  ],[
    ["let",6,["arg",5]]
  ]],
  ["get","customer",[["arg",2],["arg",3],["reg",6]],[7,8,9,10,11,12,13,14]],
  ["if",["eq",["reg",9],1],[
    ["let",15,["front",
      ["cat",["cat",["cat",["cat",["cat",
        ["cat",["show",["reg",6]]," "],
        ["cat",["show",["arg",3]]," "]],
        ["cat",["show",["arg",2]]," "]],
        ["cat",["show",["arg",1]]," "]],
        ["cat",["show",["arg",0]]," "]],
        ["cat",["show",["arg",6]]," "]],
      ["reg",14],500]]
  ],[
    ["let",15,["reg",14]]
  ]],
  ["put","customer",[["arg",2],["arg",3],["reg",6]],
    [["reg",7],["reg",8],["reg",9],["reg",10],["sub",["reg",11],["arg",6]],
    ["add",["reg",12],["arg",6]],["add",["reg",13],1],["reg",15]]],
  ["put","history",[["me"]],[["reg",6],["arg",3],["arg",2],["arg",1],["arg",0],["arg",7],["arg",6]]],
  ["give",["reg",6]],
  ["give",["sub",["reg",11],["arg",6]]]
]}
]}"#;
